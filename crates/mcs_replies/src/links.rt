//! The chains of contexts, as links between the places of reply objects.
ghost use Rattle.std.specs.Prelude.{◌≡◌, ◌≢◌, ◌<◌, ◌≤◌, length, slice_set, true, Some, None, IsSome};
ghost use Rattle.mcs_types.specs.declared.record.Ending.TheVariants.{Deleted, Cancelled};
ghost use Rattle.mcs_types.specs.Limits.{object_limit};
ghost use Rattle.mcs_replies.specs.Links.{link_at, places_from, with_above_at, Writes, SetsAbove, SetsBelow, Clears, Sound, IsOut, LiesOn, GainsReply, Ends, EndsLinked, topped_by, left_by, Empties, HasNoNewReply};
ghost use Rattle.mcs_replies.specs.Neighbours.{Apart};
ghost use Rattle.mcs_replies.specs.Changes.{changes};

use crate::places::PlaceNo;
use crate::tops::Tops;
use mcs_types::{Ending, OBJECTS, ObjId};

/// A reply object's link in a chain: the context, and the places of the reply objects above and
/// below it (own).
#[derive(Clone, Copy)]
pub struct Link {
    context: ObjId,
    reply: ObjId,
    above: Option<PlaceNo>,
    below: Option<PlaceNo>,
}

/// The reply objects in the chain of a context, from the top (own).
#[derive(Drop)]
pub struct Chain<'a> {
    pub(crate) links: &'a [Option<Link>],
    pub(crate) at: Option<PlaceNo>,
    pub(crate) left: u16,
}

impl<'a> Iterator for Chain<'a> {
    ghost use Rattle.std.specs.Iterator.{YieldsFirst, item_count};
    ghost use Rattle.mcs_replies.specs.Rest.{rest_of};

    type Item = ObjId;

    ghost next_gives = { YieldsFirst rest_of };

    ghost remaining = { item_count rest_of };

    fn next(&mut self) -> Option<ObjId> {
        if self.left == 0 {
            return None;
        }
        let place = self.at?;
        let link = link_in(self.links, place)?;
        self.left -= 1;
        self.at = link.below;
        Some(link.reply)
    }
}

/// The link of a place.
fn link_in(links: &[Option<Link>], place: PlaceNo) -> Option<Link>
    ensures { result ≡ link_at links.now place.0 }
{
    *links.get(place.0 as usize)?
}

/// Sets or clears the link of a place.
fn put(links: &mut Vec<Option<Link>>, place: PlaceNo, link: Option<Link>)
    requires { place.0 < length links.old.items }
    ensures items { links.new.items ≡ slice_set links.old.items place.0 link }
    ensures writes { Writes links.old.items links.new.items place.0 link }
    ensures places { length links.new.items ≡ length links.old.items }
{
    links[place.0 as usize] = link;
}

/// Removes the link of a place.
fn take(links: &mut Vec<Option<Link>>, place: PlaceNo)
    ensures items { links.new.items ≡ slice_set links.old.items place.0 None }
    ensures writes { Writes links.old.items links.new.items place.0 None }
    ensures places { length links.new.items ≡ length links.old.items }
{
    if (place.0 as usize) < links.len() {
        put(links, place, None);
    }
}

/// Sets the link above a place, if the place is in a chain.
fn set_above(links: &mut Vec<Option<Link>>, at: Option<PlaceNo>, above: Option<PlaceNo>)
    ensures items { links.new.items ≡ with_above_at at above links.old.items }
    ensures above { SetsAbove links.old.items links.new.items at above }
    ensures places { length links.new.items ≡ length links.old.items }
{
    let Some(place) = at else {
        return;
    };
    let Some(link) = link_in(links, place) else {
        return;
    };
    put(links, place, Some(Link { above, ..link }));
}

/// Sets the link below a place, if the place is in a chain.
fn set_below(links: &mut Vec<Option<Link>>, at: Option<PlaceNo>, below: Option<PlaceNo>)
    ensures below { SetsBelow links.old.items links.new.items at below }
    ensures places { length links.new.items ≡ length links.old.items }
{
    let Some(place) = at else {
        return;
    };
    let Some(link) = link_in(links, place) else {
        return;
    };
    put(links, place, Some(Link { below, ..link }));
}

/// Removes the links of a place and of all places below it, at most 256.
fn clear(links: &mut Vec<Option<Link>>, from: Option<PlaceNo>)
    requires { Apart (places_from links.old.items from) }
    ensures clears { Clears links.old.items links.new.items (places_from links.old.items from) }
    ensures places { length links.new.items ≡ length links.old.items }
{
    let mut at = from;
    for _step in 0..OBJECTS {
        let Some(place) = at else {
            return;
        };
        let Some(link) = link_in(links, place) else {
            return;
        };
        take(links, place);
        at = link.below;
    }
}

/// Puts a reply object on top of the chain of a context.
pub(crate) fn lay(
    links: &mut Vec<Option<Link>>,
    tops: &mut Tops,
    place: PlaceNo,
    reply: ObjId,
    context: ObjId,
)
    requires sound { Sound links.old.items tops.old }
    requires within { place.0 < object_limit }
    requires free { link_at links.old.items place.0 ≡ None }
    requires out { IsOut links.old.items reply }
    requires room { length tops.old.others < object_limit }
    ensures sound { Sound links.new.items tops.new }
    ensures chains { LiesOn links.old.items tops.old links.new.items tops.new reply context }
    ensures replies { GainsReply links.old.items links.new.items place.0 reply }
{
    // both calls in a row, so that the row is found once
    let below = tops.top(context);
    tops.move_to(context, Some(place));
    set_above(links, below, Some(place));
    let link = Link {
        context,
        reply,
        above: None,
        below,
    };
    put(links, place, Some(link));
}

/// Removes the top of a chain: the top moves down by one. At most three links change: the context's
/// top, the link of the reply object, and that of the one below it.
fn pop(links: &mut Vec<Option<Link>>, tops: &mut Tops, place: PlaceNo, link: Link)
    requires sound { Sound links.old.items tops.old }
    requires at { link_at links.old.items place.0 ≡ Some link }
    requires top { link.above ≡ None }
    ensures ends { Ends links.old.items tops.old links.new.items tops.new place.0
        Deleted link.reply }
    ensures changes { changes links.old.items tops.old links.new.items tops.new ≤ 3 }
{
    take(links, place);
    set_above(links, link.below, None);
    tops.move_to(link.context, link.below);
}

/// Clears the top of the chain of a link's context, if nothing is above the link.
fn cut_top(tops: &mut Tops, link: Link)
    ensures { tops.new ≡ left_by link tops.old }
{
    if link.above.is_none() {
        tops.move_to(link.context, None);
    }
}

/// Removes a reply object and all below it from their chain; what is above stays.
fn cut(links: &mut Vec<Option<Link>>, tops: &mut Tops, place: PlaceNo, link: Link)
    requires sound { Sound links.old.items tops.old }
    requires at { link_at links.old.items place.0 ≡ Some link }
    ensures cancelled { Ends links.old.items tops.old links.new.items tops.new place.0
        Cancelled link.reply }
    ensures deleted { IsSome link.above
        → Ends links.old.items tops.old links.new.items tops.new place.0 Deleted link.reply }
{
    clear(links, Some(place));
    set_below(links, link.above, None);
    cut_top(tops, link);
}

/// Removes a linked reply object from its chain, as its debt ends. Returns the context whose chain
/// it topped.
fn end(
    links: &mut Vec<Option<Link>>,
    tops: &mut Tops,
    place: PlaceNo,
    link: Link,
    how: Ending,
) -> Option<ObjId>
    requires sound { Sound links.old.items tops.old }
    requires at { link_at links.old.items place.0 ≡ Some link }
    ensures ends { Ends links.old.items tops.old links.new.items tops.new place.0 how link.reply }
    ensures topped { result ≡ topped_by (Some link) }
    ensures changes { how ≡ Deleted → IsSome result
        → changes links.old.items tops.old links.new.items tops.new ≤ 3 }
{
    let is_top = link.above.is_none();
    match how {
        Ending::Deleted => {
            if is_top {
                pop(links, tops, place, link);
            } else {
                cut(links, tops, place, link);
            }
        }
        Ending::Cancelled => cut(links, tops, place, link),
    }
    if is_top { Some(link.context) } else { None }
}

/// Removes the reply object of a place from its chain, if it is in one, as its debt ends. Returns
/// the context whose chain it topped.
pub(crate) fn leave(
    links: &mut Vec<Option<Link>>,
    tops: &mut Tops,
    place: PlaceNo,
    how: Ending,
) -> Option<ObjId>
    requires { Sound links.old.items tops.old }
    ensures ends { EndsLinked links.old.items tops.old links.new.items tops.new place.0 how }
    ensures topped { result ≡ topped_by (link_at links.old.items place.0) }
    ensures links { link_at links.old.items place.0 ≡ None → links.new.items ≡ links.old.items }
    ensures tops { link_at links.old.items place.0 ≡ None → tops.new ≡ tops.old }
    ensures changes { how ≡ Deleted → IsSome result
        → changes links.old.items tops.old links.new.items tops.new ≤ 3 }
{
    let link = link_in(links, place)?;
    end(links, tops, place, link, how)
}

/// Empties the chain of a context.
pub(crate) fn drop_links(links: &mut Vec<Option<Link>>, tops: &mut Tops, context: ObjId)
    requires { Sound links.old.items tops.old }
    ensures sound { Sound links.new.items tops.new }
    ensures chains { Empties links.old.items tops.old links.new.items tops.new context }
    ensures others { HasNoNewReply links.old.items links.new.items }
{
    if let Some(place) = tops.top(context) {
        if let Some(link) = link_in(links, place) {
            cut(links, tops, place, link);
        }
    }
}
