//! All contexts of some links, each offered to a list of the best.

ghost use Rattle.std.specs.Prelude.{◌≡◌, ◌+◌, ◌-◌, ◌<◌, ◌≤◌, ◌++◌, true, length, filter, All, AllPairs, OnOk, IfOk, drop, slice_index_or};
ghost use Rattle.geo_base.specs.declared.link.Link.{Link};
ghost use Rattle.geo_base.specs.Job.{compat_of};
ghost use Rattle.geo_base.specs.Link.{admits_below, stacks as is_stacked};
ghost use Rattle.geo_base.specs.Answer.{best};
ghost use Rattle.geo_base.specs.Best.{best_of};
ghost use Rattle.geo_base.specs.Order.{context_cmp, same_target};
ghost use Rattle.plain_answer.specs.Offered.{with_more};

use geo_base::context::Context;
use geo_base::link::Link;
use geo_base::refusal::Memory;
use std::alloc::Global;
use top_list::TopList;

/// Whether two layers, 0 to 15, are compatible: bit b of the a-th number of `stacks` says so.
fn are_compatible(stacks: &[u16; 16], a: u8, b: u8) -> bool
    requires a { a < 16 }
    requires b { b < 16 }
    ensures { result ≡ compat_of stacks.now a b }
{
    stacks[usize::from(a)] >> b & 1 == 1
}

/// Whether b may be stacked on a.
fn is_stacked(stacks: &[u16; 16], a: &Link, b: &Link) -> bool
    requires a { a.now.layer < 16 }
    requires b { b.now.layer < 16 }
    ensures { result ≡ is_stacked (compat_of stacks.now) a.now b.now }
{
    b.layer < a.layer
        && (a.to <= b.from || b.to <= a.from)
        && b.tile.holds(&a.tile)
        && are_compatible(stacks, a.layer, b.layer)
}

/// Those of some links that may be stacked on this one.
fn admitted(
    alloc: Global,
    stacks: &[u16; 16],
    link: &Link,
    links: &[Link],
) -> Result<Vec<Link>, Memory>
    requires one { link.now.layer < 16 }
    requires all { All (λ l. l.layer < 16) links.now }
    ensures { IfOk result (λ v. v.items ≡ filter (is_stacked (compat_of stacks.now) link.now) links.now) }
{
    let mut below = Vec::new(alloc);
    for other in links {
        if is_stacked(stacks, link, other) {
            below.push(*other)?;
        }
    }
    Ok(below)
}

/// Offers a context, and each that goes on from it by some of these links.
fn offer_with(
    alloc: Global,
    stacks: &[u16; 16],
    top: &mut TopList,
    context: &Context,
    below: &[Link],
) -> Result<(), Memory>
    requires layers { All (λ l. l.layer < 16) below.now }
    requires admitted { All (λ l. All (λ a. admits_below a l ≡ true) context.now) below.now }
    ensures { OnOk result (top.new ≡ best_of context_cmp same_target 40 (top.old ++ with_more (compat_of stacks.now) (16 - length context.now) context.now below.now)) }
{
    top.offer(context);
    if context.len() < 16 {
        for link in below {
            let mut longer = *context;
            longer.push(*link);
            let rest = admitted(alloc, stacks, link, below)?;
            offer_with(alloc, stacks, top, &longer, &rest)?;
        }
    }
    Ok(())
}

/// A place from which on no link has a smaller layer than the link at i: the one that was found for a link before it, or else i.
fn smaller_end(links: &[Link], end: usize, i: usize) -> usize
    requires rising { AllPairs (λ a b. a.layer ≤ b.layer) links.now }
    requires end { end ≤ i }
    requires i { i < length links.now }
    ensures end { result ≤ i }
    ensures rest { (d : Link) → All (λ l. (slice_index_or links.now i d).layer ≤ l.layer) (drop result links.now) }
{
    if links[end].layer < links[i].layer {
        i
    } else {
        end
    }
}

/// The best contexts of some links, which rise by layer. Bit b of the a-th number of `stacks` says whether the layers a and b
/// are compatible.
pub fn best_contexts(alloc: Global, stacks: &[u16; 16], links: &[Link]) -> Result<TopList, Memory>
    requires layers { All (λ l. l.layer < 16) links.now }
    requires rising { AllPairs (λ a b. a.layer ≤ b.layer) links.now }
    ensures { IfOk result (λ top. top ≡ best (compat_of stacks.now) links.now) }
{
    let mut top = TopList::new(alloc)?;
    let mut end = 0;
    for i in 0..links.len() {
        let link = &links[i];
        end = smaller_end(links, end, i);
        let rest = admitted(alloc, stacks, link, &links[..end])?;
        offer_with(alloc, stacks, &mut top, &Context::new(*link), &rest)?;
    }
    Ok(top)
}
