//! The handles that C keeps: a core, a heap whose stores race, a racer, a sweeper or a reader
//! behind a pointer, or nothing if the pointer is null.
//!
//! Contracts see what a handle holds, or `None` if it is closed. Dropping a handle frees nothing:
//! `g1_close` frees a core, and `g1_heap_close` a heap with its parties, each of which a pause or
//! the end of a reading has taken in.
ghost use Rattle.std.specs.Prelude.{◌≡◌};
ghost use Rattle.g1_handles.specs.Prelude.{Option, Some, refl, coded_option, Machine, machine_code};
ghost use Rattle.g1_handles.specs.declared.heap.racing_heap.RacingHeap.{RacingHeap};
ghost use Rattle.g1_handles.specs.Own.{holds, core_row, heap_row, racer_row, sweeper_row};
ghost use Rattle.g1_handles.specs.Own.{reader_row, RacerParty, SweeperParty, ReaderParty};

use crate::any_handle::AnyHandle;
use crate::heap::racing_heap::RacingHeap;
use crate::nullable_box::NullableBox;
use crate::party::Party;
use g1_core::Core;
use g1_race::{Racer, Reader, Sweeper};
use std::alloc::Global;
use std::marker::Model;

/// A core.
#[repr(C)]
#[derive(Drop)]
pub struct Handle {
    at: *mut u8,
    alloc: Global,
    pub ghost value: { Option Machine } by { coded_option machine_code },
}

impl Model for Handle {
    ghost also_owns = { λ h. holds core_row h.alloc h.at h.value };
}

impl AnyHandle for Handle {
    type Value = Core;

    ghost value = { λ h. h.value };

    ghost holding = { λ h x. record h { value = Some x } };

    ghost holds = { λ h x. refl };

    fn from_nullable(boxed: NullableBox<Core>) -> Handle
        ensures { result.value ≡ boxed.value }
    {
        let NullableBox { at, alloc } = boxed;
        Handle {
            at: at as *mut u8,
            alloc,
        }
    }

    fn into_nullable(self) -> NullableBox<Core>
        ensures { result.value ≡ self.value }
    {
        let Handle { at, alloc } = self;
        NullableBox {
            at: at as *mut Core,
            alloc,
        }
    }

    fn value_mut(&mut self) -> Option<&mut Core> {
        let at = self.at as *mut Core;
        if at.is_null() {
            None
        } else {
            Some(unsafe { &mut *at })
        }
    }
}

unsafe impl Send for Handle {}

/// A heap whose stores race.
#[repr(C)]
#[derive(Drop)]
pub struct HeapHandle {
    at: *mut u8,
    alloc: Global,
    pub ghost value: { Option RacingHeap } by { coded_option heap_row.coded },
}

impl Model for HeapHandle {
    ghost also_owns = { λ h. holds heap_row h.alloc h.at h.value };
}

impl AnyHandle for HeapHandle {
    type Value = RacingHeap;

    ghost value = { λ h. h.value };

    ghost holding = { λ h x. record h { value = Some x } };

    ghost holds = { λ h x. refl };

    fn from_nullable(boxed: NullableBox<RacingHeap>) -> HeapHandle
        ensures { result.value ≡ boxed.value }
    {
        let NullableBox { at, alloc } = boxed;
        HeapHandle {
            at: at as *mut u8,
            alloc,
        }
    }

    fn into_nullable(self) -> NullableBox<RacingHeap>
        ensures { result.value ≡ self.value }
    {
        let HeapHandle { at, alloc } = self;
        NullableBox {
            at: at as *mut RacingHeap,
            alloc,
        }
    }

    fn value_mut(&mut self) -> Option<&mut RacingHeap> {
        let at = self.at as *mut RacingHeap;
        if at.is_null() {
            None
        } else {
            Some(unsafe { &mut *at })
        }
    }
}

unsafe impl Send for HeapHandle {}

/// A racer, with its share of the race.
#[repr(C)]
#[derive(Drop)]
pub struct RacerHandle {
    at: *mut u8,
    alloc: Global,
    pub ghost value: { Option RacerParty } by { coded_option racer_row.coded },
}

impl Model for RacerHandle {
    ghost also_owns = { λ h. holds racer_row h.alloc h.at h.value };
}

impl AnyHandle for RacerHandle {
    type Value = Party<Racer>;

    ghost value = { λ h. h.value };

    ghost holding = { λ h x. record h { value = Some x } };

    ghost holds = { λ h x. refl };

    fn from_nullable(boxed: NullableBox<Party<Racer>>) -> RacerHandle
        ensures { result.value ≡ boxed.value }
    {
        let NullableBox { at, alloc } = boxed;
        RacerHandle {
            at: at as *mut u8,
            alloc,
        }
    }

    fn into_nullable(self) -> NullableBox<Party<Racer>>
        ensures { result.value ≡ self.value }
    {
        let RacerHandle { at, alloc } = self;
        NullableBox {
            at: at as *mut Party<Racer>,
            alloc,
        }
    }

    fn value_mut(&mut self) -> Option<&mut Party<Racer>> {
        let at = self.at as *mut Party<Racer>;
        if at.is_null() {
            None
        } else {
            Some(unsafe { &mut *at })
        }
    }
}

unsafe impl Send for RacerHandle {}

/// A sweeper, with its share of the race.
#[repr(C)]
#[derive(Drop)]
pub struct SweeperHandle {
    at: *mut u8,
    alloc: Global,
    pub ghost value: { Option SweeperParty } by { coded_option sweeper_row.coded },
}

impl Model for SweeperHandle {
    ghost also_owns = { λ h. holds sweeper_row h.alloc h.at h.value };
}

impl AnyHandle for SweeperHandle {
    type Value = Party<Sweeper>;

    ghost value = { λ h. h.value };

    ghost holding = { λ h x. record h { value = Some x } };

    ghost holds = { λ h x. refl };

    fn from_nullable(boxed: NullableBox<Party<Sweeper>>) -> SweeperHandle
        ensures { result.value ≡ boxed.value }
    {
        let NullableBox { at, alloc } = boxed;
        SweeperHandle {
            at: at as *mut u8,
            alloc,
        }
    }

    fn into_nullable(self) -> NullableBox<Party<Sweeper>>
        ensures { result.value ≡ self.value }
    {
        let SweeperHandle { at, alloc } = self;
        NullableBox {
            at: at as *mut Party<Sweeper>,
            alloc,
        }
    }

    fn value_mut(&mut self) -> Option<&mut Party<Sweeper>> {
        let at = self.at as *mut Party<Sweeper>;
        if at.is_null() {
            None
        } else {
            Some(unsafe { &mut *at })
        }
    }
}

unsafe impl Send for SweeperHandle {}

/// A reader, with its share of the race.
#[repr(C)]
#[derive(Drop)]
pub struct ReaderHandle {
    at: *mut u8,
    alloc: Global,
    pub ghost value: { Option ReaderParty } by { coded_option reader_row.coded },
}

impl Model for ReaderHandle {
    ghost also_owns = { λ h. holds reader_row h.alloc h.at h.value };
}

impl AnyHandle for ReaderHandle {
    type Value = Party<Reader>;

    ghost value = { λ h. h.value };

    ghost holding = { λ h x. record h { value = Some x } };

    ghost holds = { λ h x. refl };

    fn from_nullable(boxed: NullableBox<Party<Reader>>) -> ReaderHandle
        ensures { result.value ≡ boxed.value }
    {
        let NullableBox { at, alloc } = boxed;
        ReaderHandle {
            at: at as *mut u8,
            alloc,
        }
    }

    fn into_nullable(self) -> NullableBox<Party<Reader>>
        ensures { result.value ≡ self.value }
    {
        let ReaderHandle { at, alloc } = self;
        NullableBox {
            at: at as *mut Party<Reader>,
            alloc,
        }
    }

    fn value_mut(&mut self) -> Option<&mut Party<Reader>> {
        let at = self.at as *mut Party<Reader>;
        if at.is_null() {
            None
        } else {
            Some(unsafe { &mut *at })
        }
    }
}

unsafe impl Send for ReaderHandle {}
