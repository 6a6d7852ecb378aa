//! The instances of a file, one after another.
use crate::exchange::Exchange;
use crate::instance_ref::InstanceRef;
use std::marker::Model;

/// Instances in the order of their numbers: an iterator that takes no memory. Contracts see it as the list of those that are left.
#[derive(Drop)]
pub struct Instances<'a> {
    exchange: &'a Exchange,
    at: usize,
}

impl<'a> Model for Instances<'a> {
    ghost use Rattle.std.specs.Prelude.{List, drop};
    ghost use Rattle.p21_values.specs.declared.value.Instance.{Instance};
    ghost use Rattle.p21_values.specs.contracts.value.Value21 as row;
    ghost use Rattle.std.specs.Coded.{codes};

    ghost coded = { Prim.hlevel (codes, row.the_row.coded) };

    ghost Value = { List Instance };

    ghost view = { λ i. drop i.at i.exchange.now };
}

impl<'a> Iterator for Instances<'a> {
    ghost use Rattle.std.specs.Iterator.{YieldsFirst, item_count};

    type Item = InstanceRef<'a>;

    ghost next_gives = { YieldsFirst (λ left. left) };

    ghost remaining = { item_count (λ left. left) };

    fn next(&mut self) -> Option<InstanceRef<'a>> {
        if self.at >= self.exchange.kept().heads.len() {
            return None;
        }
        let at = self.at;
        self.at += 1;
        Some(InstanceRef::of(self.exchange, at))
    }
}

impl<'a> Instances<'a> {
    ghost use Rattle.std.specs.Prelude.{◌≡◌, drop, length};

    /// The instances from that place on.
    pub(crate) fn of(exchange: &'a Exchange, at: usize) -> Instances<'a>
        ensures { result ≡ drop at exchange.now }
    {
        Instances { exchange, at }
    }

    /// How many instances are left.
    pub fn len(&self) -> usize
        ensures { result ≡ length self.now }
    {
        self.exchange.kept().heads.len().saturating_sub(self.at)
    }

    /// The instances that are left, for a second time.
    pub fn iter(&self) -> Instances<'a>
        ensures { result ≡ self.now }
    {
        Instances {
            exchange: self.exchange,
            at: self.at,
        }
    }
}
