//! The rule that each step keeps, and what each step tells.
use crate::shared::view::View;
use atomic_table::{Join, Play, Split, TableRule};
use std::snapshot::Snapshot;

/// The key is the words as they were at first.
pub struct FourLayers;

impl TableRule<(), View, Snapshot<Vec<u64>>> for FourLayers {
    ghost use Rattle.hibitset_atomic.specs.Rule.{Invariant, opening_view};

    ghost holds = { λ k. Invariant k.value.items };

    ghost first = { λ k. opening_view k.value.items };
}

pub struct FetchOrLayer0;

impl Play<(), View> for FetchOrLayer0 {
    ghost use Rattle.hibitset_atomic.specs.Rule.{IsFetchOrLayer0};

    ghost then = { IsFetchOrLayer0 };
}

pub struct FetchOrSummary;

impl Play<(), View> for FetchOrSummary {
    ghost use Rattle.hibitset_atomic.specs.Rule.{IsFetchOrSummary};

    ghost then = { IsFetchOrSummary };
}

pub struct Load;

impl Play<(), View> for Load {
    ghost use Rattle.hibitset_atomic.specs.Rule.{IsLoad};

    ghost then = { IsLoad };
}

pub struct SplitSeat;

impl Split<View> for SplitSeat {
    ghost use Rattle.hibitset_atomic.specs.Rule.{first_half, second_half};

    ghost left = { first_half };

    ghost right = { second_half };
}

pub struct JoinSeats;

impl Join<View> for JoinSeats {
    ghost use Rattle.hibitset_atomic.specs.Rule.{joined_view, empty_view};

    ghost both = { joined_view };

    ghost spent = { empty_view };
}
