//! Laws of the definitions.

ghost use Rattle.ix_selector.specs.Pattern.{IsSelector};
ghost use Rattle.ix_selector.specs.Laws.{EntersWhatIsTested, TestsWhatIsEntered, ReadsWhatIsSpelled, HasSpelling, SpellsNoOther, NothingIsLeft, LeavesTheRest, SameEntersTheSame};

use crate::selector::Selector;

/// States that `is_entered` decides which paths a selector enters.
pub fn entered_is_decided()
    ensures entered { EntersWhatIsTested }
    ensures only { TestsWhatIsEntered }
{}

/// States that a selector is read exactly where the data spell it; that each selector has data that
/// spell it; and that data spell at most one.
pub fn selector_is_read_where_it_is_spelled()
    ensures read { ReadsWhatIsSpelled }
    ensures some { HasSpelling }
    ensures one { SpellsNoOther }
{}

/// States that the residual of a selector at a place enters what the selector enters from there. So
/// equal residuals at two places enter the same from both. The residual is empty exactly if the
/// place isn't entered.
pub fn residual_is_the_rest()
    ensures left { NothingIsLeft }
    ensures rest { LeavesTheRest }
    ensures same { SameEntersTheSame }
{}

/// States that a selector obeys the rules on edges and on nesting.
pub fn selector_is_one(selector: &Selector)
    ensures { IsSelector selector.now }
{
    let _places = selector.places();
}
