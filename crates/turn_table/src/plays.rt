//! What each step tells. These types are for the proofs alone.
ghost use Rattle.std.specs.Prelude.{◌≡◌};
ghost use Rattle.turn_table.specs.Knowledge.{counted, left, lifted, offered, stayed, given, joined, spent};
ghost use Rattle.turn_table.specs.Tells.{Took, Drew, Numbers, Settled};

use crate::journalled::Journalled;
use crate::knows::Know;
use std::marker::PhantomData;
use turn_lock::{Counts, Join, Learns, Leaves, Split, Takes};

pub struct Enter<V> {
    marker: PhantomData<V>,
}

impl<V: Journalled> Takes<V, Know<V::Note, V::Base>> for Enter<V> {
    ghost took = { Took V.journal V.base V.number_of };
}

pub struct Count<V> {
    marker: PhantomData<V>,
}

impl<V: Journalled> Counts<V, Know<V::Note, V::Base>> for Count<V> {
    ghost counted = { λ v k y more found w. w ≡ counted v k (V.journal y) };
}

pub struct Leave;

impl<V, N, B> Leaves<V, Know<N, B>> for Leave {
    ghost gave = { λ v k y w. w ≡ left v };
}

pub struct Draw<V> {
    marker: PhantomData<V>,
}

impl<V: Journalled> Learns<Know<V::Note, V::Base>> for Draw<V> {
    ghost learnt = { λ v one x w. Drew V.time_of v x w };
}

pub struct Lift;

impl<N, B> Learns<Know<N, B>> for Lift {
    ghost learnt = { λ v least found w. w ≡ lifted v least };
}

pub struct Name;

impl<N, B> Learns<Know<N, B>> for Name {
    ghost learnt = { λ v one x w. Numbers v x w };
}

pub struct Offer;

impl<N, B> Learns<Know<N, B>> for Offer {
    ghost learnt = { λ v gift found w. w ≡ offered v gift };
}

pub struct Settle<V> {
    marker: PhantomData<V>,
}

impl<V: Journalled> Learns<Know<V::Note, V::Base>> for Settle<V> {
    ghost learnt = { λ v zero found w. Settled V.number_of v w };
}

pub struct Share;

impl<N, B> Split<Know<N, B>> for Share {
    ghost left = { stayed };

    ghost right = { given };
}

pub struct Unite;

impl<N, B> Join<Know<N, B>> for Unite {
    ghost both = { joined };

    ghost spent = { spent };
}
