//! Links between places.
ghost use Rattle.std.specs.Prelude.{◌≡◌, ◌<◌, ◌++◌, ◌∷◌, [], length, slice_get, Some, OnOk, OnErr};
ghost use Rattle.sparse_tensor.specs.Operations.{IsAfter, IsLinks};
ghost use Rattle.sparse_tensor.specs.Collected.{links_from};

use frac128::Frac;
use std::alloc::{AllocError, Global};
use std::marker::Model;

/// A link joins a place to another with a value.
#[derive(Clone, Copy, Debug, PartialEq)]
pub struct Link {
    /// The place that it comes from.
    pub from: u32,

    /// The place that it goes to.
    pub to: u32,

    /// The value.
    pub value: Frac,
}

/// The links from a place in links that are in their order.
fn run_from(links: &[Link], place: u32) -> &[Link]
    requires { IsLinks links.now }
    ensures { result.now ≡ links_from place links.now }
{
    let start = links.partition_point(|link| link.from < place);
    let end = links.partition_point(|link| link.from <= place);
    &links[start..end]
}

/// A list of links, ordered by the place that they come from, then by the one that they go to, so that
/// no two places are linked twice. Contracts see it as the list of the links.
#[derive(Debug, Drop)]
pub struct LinkList {
    links: Vec<Link>,
}

impl Model for LinkList {
    ghost use Rattle.std.specs.Prelude.{List};
    ghost use Rattle.sparse_tensor.specs.declared.links.Link.{Link};
    ghost use Rattle.sparse_tensor.specs.Operations.{IsLinks};

    ghost Value = { List Link };

    ghost view = { λ l. l.links.items };

    ghost invariant = { λ l. IsLinks l.links.items };
}

impl LinkList {
    /// The list with no link. It takes no memory.
    pub fn new(alloc: Global) -> LinkList
        ensures { result ≡ [] }
    {
        LinkList {
            links: Vec::new(alloc),
        }
    }

    /// Puts a link at the end. The condition is that it comes after the last one. After want of memory
    /// the list is as it was.
    pub fn push(&mut self, link: Link) -> Result<(), AllocError>
        requires { IsAfter self.old link }
        ensures ok { OnOk result (self.new ≡ self.old ++ link ∷ []) }
        ensures err { OnErr result (self.new ≡ self.old) }
    {
        self.links.push(link)?;
        Ok(())
    }

    /// The number of links.
    pub fn len(&self) -> usize
        ensures { result ≡ length self.now }
    {
        self.links.len()
    }

    /// The link at a place, counted from 0.
    pub fn item(&self, place: usize) -> Link
        requires { place < length self.now }
        ensures { slice_get self.now place ≡ Some result }
    {
        self.links[place]
    }

    /// The links in their order.
    pub fn as_slice(&self) -> &[Link]
        ensures value { result.now ≡ self.now }
        ensures ordered { IsLinks result.now }
    {
        self.links.as_slice()
    }

    /// The links from a place, found by halving.
    pub(crate) fn from(&self, place: u32) -> &[Link]
        ensures { result.now ≡ links_from place self.now }
    {
        run_from(self.links.as_slice(), place)
    }
}
