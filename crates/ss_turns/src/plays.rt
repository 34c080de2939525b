//! What each step tells the pass that makes it.
ghost use Rattle.ss_turns.specs.View.{spent, fewer, one_share, merged};
ghost use Rattle.ss_turns.specs.Plays.{Takes, GivesBack, Asks, Looks};

use crate::member::Member;
use crate::view::View;
use atomic_table::{Join, Play, Split};
use std::marker::PhantomData;

pub(crate) struct Take<V> {
    marker: PhantomData<V>,
}

impl<V: Member> Play<Option<V>, View<V::Plan>> for Take<V> {
    ghost then = { Takes V.place V.plan V.numbers };
}

pub(crate) struct Give<V> {
    marker: PhantomData<V>,
}

impl<V: Member> Play<Option<V>, View<V::Plan>> for Give<V> {
    ghost then = { GivesBack V.numbers };
}

pub(crate) struct Ask;

impl<T, P> Play<Option<T>, View<P>> for Ask {
    ghost then = { Asks };
}

pub(crate) struct Look;

impl<T, P> Play<Option<T>, View<P>> for Look {
    ghost then = { Looks };
}

pub(crate) struct Cut;

impl<P> Split<View<P>> for Cut {
    ghost left = { fewer };

    ghost right = { one_share };
}

pub(crate) struct Glue;

impl<P> Join<View<P>> for Glue {
    ghost both = { merged };

    ghost spent = { spent };
}
