//! Laws of the course of jobs.

ghost use Rattle.ix_stages.specs.CourseLaws.{IsSized, HasVisits, HasOver, IsSmall, IsOfStore};
ghost use Rattle.ix_stages.specs.CourseLaws.{AllowsVisits, AllowsCloses, GivesGood};

/// States that the course of jobs has exactly the visits of their walks, all of them visits of the
/// store. It allows each visit of a walk at its number, and the close that ends the walk.
pub fn course_of_jobs()
    ensures sized { IsSized }
    ensures visits { HasVisits }
    ensures over { HasOver }
    ensures visit { AllowsVisits }
    ensures close { AllowsCloses }
    ensures small { IsSmall }
    ensures store { IsOfStore }
{}

/// States that what was well taken by the course of jobs is good.
pub fn well_taken_is_good()
    ensures { GivesGood }
{}
