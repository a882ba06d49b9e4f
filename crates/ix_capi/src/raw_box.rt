//! What a handle points to.

ghost use Rattle.std.specs.Prelude.{◌≡◌, Option, true, None, Some};
ghost use Rattle.std.specs.Coded.{coded_option};
ghost use Rattle.std.specs.Option.{is_some};
ghost use Rattle.ix_api.specs.contracts.object.Object.{the_row as held_row};
ghost use Rattle.ix_api.specs.declared.object.Object.{Object};

use crate::into_raw::RawParts;
use ix_api::Object;
use std::alloc::Global;
use std::marker::Model;
use std::ptr;

/// Nothing, or a boxed value that the pointer leads to and that this owns. C has it as a pointer that it
/// neither reads nor writes.
///
/// Dropping one frees nothing, so it is dropped only when it is empty.
#[repr(C)]
#[derive(Drop)]
pub struct RawBox {
    at: *mut u8,
    ghost value: { Option Object } by { coded_option held_row.coded },
}

impl Model for RawBox {
    ghost use Rattle.ix_api.specs.contracts.object.Object.{the_row as held_row};
    ghost use Rattle.ix_capi.specs.Holding.{held};

    ghost also_owns = { λ p. held held_row p.at p.value };
}

impl RawBox {
    pub(crate) fn empty() -> RawBox
        ensures { result.value ≡ None }
    {
        RawBox {
            at: ptr::null_mut(),
        }
    }

    pub(crate) fn of(from: RawParts<Object, Global>) -> RawBox
        ensures { result.value ≡ Some from.value }
    {
        let RawParts { at, alloc: _ } = from;
        RawBox { at: at as *mut u8 }
    }

    pub(crate) fn into_raw_parts(self, alloc: Global) -> RawParts<Object, Global>
        requires { is_some self.value ≡ true }
        ensures { Some result.value ≡ self.value }
    {
        let RawBox { at } = self;
        RawParts {
            at: at as *mut Object,
            alloc,
        }
    }
}
