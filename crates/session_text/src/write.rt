//! The text of each answer. Each public call appends to what stands in `out`; after want of memory that is as it was.

ghost use Rattle.std.specs.Prelude.{◌≡◌, ◌≤◌, ◌*◌, ◌++◌, length, codes, decimal, flat_map, sum_by, take, OnOk, OnErr};
ghost use Rattle.std.specs.Io.{StartsWith};
ghost use Rattle.geo_base.specs.Order.{target_score};
ghost use Rattle.session_text.specs.Reply.{tile_text, link_text, context_text, fault_text, answer_text, reply_text, counts_text, explain_text, replay_text, taken_word, put_text, published_text, drop_text, end_text, report_text, load_text, limit_text};
ghost use Rattle.geo_query.specs.declared.reply.Reply.TheVariants.{Unreadable, Grids};
ghost use Rattle.session_text.specs.declared.replay_reply.ReplayReply.TheVariants.{Plain, Illegal, Unfinished};

use crate::replay_reply::ReplayReply;
use feature_reader::load_report::{LoadEnd, LoadReport};
use feature_reader::taker::{PutFault, Taken};
use geo_base::answer::Contexts;
use geo_base::link::Link;
use geo_base::refusal::Memory;
use geo_base::tile::Tile;
use geo_query::query::QueryFault;
use geo_query::reply::Reply;
use itoa::Buffer;

/// Appends some bytes.
fn push(out: &mut Vec<u8>, text: &[u8]) -> Result<(), Memory>
    ensures ok { OnOk result (out.new.items ≡ out.old.items ++ text.now) }
    ensures err { OnErr result (StartsWith out.new.items out.old.items) }
{
    out.extend_from_slice(text)?;
    Ok(())
}

/// Appends a mark and then a number in digits.
fn push_number(out: &mut Vec<u8>, mark: &[u8], n: u64) -> Result<(), Memory>
    ensures ok { OnOk result (out.new.items ≡ out.old.items ++ (mark.now ++ decimal n)) }
    ensures err { OnErr result (StartsWith out.new.items out.old.items) }
{
    let mut buffer = Buffer::new();
    push(out, mark)?;
    push(out, buffer.format(n).as_bytes())?;
    Ok(())
}

/// Appends some bytes and then others.
fn push_both(out: &mut Vec<u8>, first: &[u8], second: &[u8]) -> Result<(), Memory>
    ensures ok { OnOk result (out.new.items ≡ out.old.items ++ (first.now ++ second.now)) }
    ensures err { OnErr result (StartsWith out.new.items out.old.items) }
{
    push(out, first)?;
    push(out, second)?;
    Ok(())
}

/// Appends the text of a tile.
fn write_tile(out: &mut Vec<u8>, tile: &Tile) -> Result<(), Memory>
    ensures ok { OnOk result (out.new.items ≡ out.old.items ++ tile_text tile.now) }
    ensures err { OnErr result (StartsWith out.new.items out.old.items) }
{
    push_number(out, b"@", u64::from(tile.z))?;
    push_number(out, b"/", u64::from(tile.x))?;
    push_number(out, b"/", u64::from(tile.y))?;
    Ok(())
}

/// Appends the text of a link.
fn write_link(out: &mut Vec<u8>, link: &Link) -> Result<(), Memory>
    ensures ok { OnOk result (out.new.items ≡ out.old.items ++ link_text link.now) }
    ensures err { OnErr result (StartsWith out.new.items out.old.items) }
{
    push_number(out, b" ", u64::from(link.layer))?;
    push_number(out, b":", u64::from(link.id))?;
    write_tile(out, &link.tile)?;
    push_number(out, b"[", u64::from(link.from))?;
    push_number(out, b",", u64::from(link.to))?;
    push_number(out, b")=", u64::from(link.value))?;
    Ok(())
}

/// Appends the texts of links.
fn write_links(out: &mut Vec<u8>, links: &[Link]) -> Result<(), Memory>
    ensures ok { OnOk result (out.new.items ≡ out.old.items ++ flat_map link_text links.now) }
    ensures err { OnErr result (StartsWith out.new.items out.old.items) }
{
    for link in links {
        write_link(out, link)?;
    }
    Ok(())
}

/// The sum of the values of at most 16 links.
fn total(links: &[Link]) -> u64
    requires { length links.now ≤ 16 }
    ensures { result ≡ sum_by (λ l. l.value) links.now }
{
    let mut sum: u64 = 0;
    for link in links {
        sum += u64::from(link.value);
    }
    sum
}

/// The score of the target, the first link.
fn score(links: &[Link]) -> u8
    ensures { result ≡ target_score links.now }
{
    match links.first() {
        Some(target) => target.score,
        None => 0,
    }
}

/// Appends the line of a context of a query with this many tokens.
fn write_context(out: &mut Vec<u8>, tokens: u8, links: &[Link]) -> Result<(), Memory>
    requires { length links.now ≤ 16 }
    ensures ok { OnOk result (out.new.items ≡ out.old.items ++ context_text tokens links.now) }
    ensures err { OnErr result (StartsWith out.new.items out.old.items) }
{
    push_number(out, b"context ", total(links))?;
    push_number(out, b"/", 10_000 * u64::from(tokens))?;
    push_number(out, b" score ", u64::from(score(links)))?;
    write_links(out, links)?;
    push(out, b"\n")?;
    Ok(())
}

/// Appends the lines of contexts of a query with this many tokens.
fn write_contexts(out: &mut Vec<u8>, tokens: u8, contexts: &Contexts) -> Result<(), Memory>
    ensures ok { OnOk result (out.new.items ≡ out.old.items ++ flat_map (context_text tokens) contexts.now) }
    ensures err { OnErr result (StartsWith out.new.items out.old.items) }
{
    for place in 0..contexts.len() {
        write_context(out, tokens, contexts.at(place).links())?;
    }
    Ok(())
}

/// The number and the name of a fault.
fn fault_text(fault: QueryFault) -> &'static [u8]
    ensures { result.now ≡ fault_text fault }
{
    match fault {
        QueryFault::WrongOption => b"1 Option",
        QueryFault::Box => b"2 Box",
        QueryFault::Long => b"3 Long",
        QueryFault::Empty => b"4 Empty",
        QueryFault::Tokens => b"5 Tokens",
    }
}

/// Appends the text of a refusal.
fn write_unreadable(out: &mut Vec<u8>, fault: QueryFault) -> Result<(), Memory>
    ensures ok { OnOk result (out.new.items ≡ out.old.items ++ answer_text (Unreadable fault)) }
    ensures err { OnErr result (StartsWith out.new.items out.old.items) }
{
    push_both(out, b"unreadable ", fault_text(fault))?;
    push(out, b"\n")?;
    Ok(())
}

/// Appends the text of a query that matches too many grid entries: how many, and the limit.
fn write_grids(out: &mut Vec<u8>, generation: u32, total: u64, limit: u64) -> Result<(), Memory>
    ensures ok { OnOk result (out.new.items ≡ out.old.items ++ answer_text (Grids generation total limit)) }
    ensures err { OnErr result (StartsWith out.new.items out.old.items) }
{
    push_number(out, b"gen ", u64::from(generation))?;
    push_number(out, b" grids ", total)?;
    push_number(out, b" ", limit)?;
    push(out, b"\n")?;
    Ok(())
}

/// Appends the text of a reply that follows the lane and the place of its ask.
fn write_answer(out: &mut Vec<u8>, r: &Reply) -> Result<(), Memory>
    ensures ok { OnOk result (out.new.items ≡ out.old.items ++ answer_text r.now) }
    ensures err { OnErr result (StartsWith out.new.items out.old.items) }
{
    match r {
        Reply::Found { generation, answer } => {
            push_number(out, b"gen ", u64::from(*generation))?;
            push_number(out, b" found ", answer.contexts.len() as u64)?;
            push(out, b"\n")?;
            write_contexts(out, answer.tokens, &answer.contexts)?;
        }
        Reply::Unreadable(fault) => write_unreadable(out, *fault)?,
        Reply::Grids {
            generation,
            total,
            limit,
        } => write_grids(out, *generation, *total, *limit)?,
        Reply::Memory => push(out, b"memory\n")?,
    }
    Ok(())
}

/// Appends the text of an ask: its lane, its place among the asks of its lane, counted from 0, and the reply.
fn push_reply(out: &mut Vec<u8>, lane: u8, place: u64, r: &Reply) -> Result<(), Memory>
    ensures ok { OnOk result (out.new.items ≡ out.old.items ++ reply_text lane place r.now) }
    ensures err { OnErr result (StartsWith out.new.items out.old.items) }
{
    push_number(out, b"ask ", u64::from(lane))?;
    push_number(out, b" ", place)?;
    push(out, b" ")?;
    write_answer(out, r)?;
    Ok(())
}

/// Appends how many partials a search opened and cut.
fn push_counts(out: &mut Vec<u8>, opens: u64, cuts: u64) -> Result<(), Memory>
    ensures ok { OnOk result (out.new.items ≡ out.old.items ++ (codes "opens " ++ decimal opens ++ codes " cuts " ++ decimal cuts ++ codes "\n")) }
    ensures err { OnErr result (StartsWith out.new.items out.old.items) }
{
    push_number(out, b"opens ", opens)?;
    push_number(out, b" cuts ", cuts)?;
    push(out, b"\n")?;
    Ok(())
}

/// Appends how many partials a search opened and cut, where it found an answer.
fn write_counts(out: &mut Vec<u8>, r: &Reply, opens: u64, cuts: u64) -> Result<(), Memory>
    ensures ok { OnOk result (out.new.items ≡ out.old.items ++ counts_text r.now opens cuts) }
    ensures err { OnErr result (StartsWith out.new.items out.old.items) }
{
    match r {
        Reply::Found { .. } => push_counts(out, opens, cuts),
        Reply::Unreadable(_) => Ok(()),
        Reply::Grids { .. } => Ok(()),
        Reply::Memory => Ok(()),
    }
}

/// Appends the text of an explained query.
fn push_explain(out: &mut Vec<u8>, r: &Reply, opens: u64, cuts: u64) -> Result<(), Memory>
    ensures ok { OnOk result (out.new.items ≡ out.old.items ++ explain_text r.now opens cuts) }
    ensures err { OnErr result (StartsWith out.new.items out.old.items) }
{
    push(out, b"explain ")?;
    write_answer(out, r)?;
    write_counts(out, r, opens, cuts)?;
    Ok(())
}

/// Appends the text of a query whose search went by given events, and which is answered as an ask is.
fn push_replayed(out: &mut Vec<u8>, r: &Reply) -> Result<(), Memory>
    ensures ok { OnOk result (out.new.items ≡ out.old.items ++ replay_text (Plain r.now)) }
    ensures err { OnErr result (StartsWith out.new.items out.old.items) }
{
    push(out, b"replay ")?;
    write_answer(out, r)?;
    Ok(())
}

/// Appends the text of a query whose search had an event that isn't allowed.
fn push_illegal(out: &mut Vec<u8>, generation: u32, place: u64) -> Result<(), Memory>
    ensures ok { OnOk result (out.new.items ≡ out.old.items ++ replay_text (Illegal generation place)) }
    ensures err { OnErr result (StartsWith out.new.items out.old.items) }
{
    push_number(out, b"replay gen ", u64::from(generation))?;
    push_number(out, b" illegal ", place)?;
    push(out, b"\n")?;
    Ok(())
}

/// Appends the text of a query whose search left a root.
fn push_unfinished(out: &mut Vec<u8>, generation: u32, root: u32) -> Result<(), Memory>
    ensures ok { OnOk result (out.new.items ≡ out.old.items ++ replay_text (Unfinished generation root)) }
    ensures err { OnErr result (StartsWith out.new.items out.old.items) }
{
    push_number(out, b"replay gen ", u64::from(generation))?;
    push_number(out, b" unfinished ", u64::from(root))?;
    push(out, b"\n")?;
    Ok(())
}

/// Appends the text of a query whose search went by given events.
fn push_replay(out: &mut Vec<u8>, r: &ReplayReply) -> Result<(), Memory>
    ensures ok { OnOk result (out.new.items ≡ out.old.items ++ replay_text r.now) }
    ensures err { OnErr result (StartsWith out.new.items out.old.items) }
{
    match r {
        ReplayReply::Plain(reply) => push_replayed(out, reply),
        ReplayReply::Illegal { generation, place } => push_illegal(out, *generation, *place),
        ReplayReply::Unfinished { generation, root } => push_unfinished(out, *generation, *root),
    }
}

/// What a put answers, in a word.
fn taken_word(answer: &Result<Taken, PutFault>) -> &'static [u8]
    ensures { result.now ≡ taken_word answer.now }
{
    match answer {
        Ok(Taken::New) => b"new",
        Ok(Taken::Changed) => b"changed",
        Err(PutFault::TooManyFeatures) => b"features",
        Err(PutFault::TooManyRows) => b"rows",
    }
}

/// Appends the text of a put: its layer, the id of its feature, and what it answers.
fn push_put(
    out: &mut Vec<u8>,
    layer: u8,
    id: u32,
    answer: &Result<Taken, PutFault>,
) -> Result<(), Memory>
    ensures ok { OnOk result (out.new.items ≡ out.old.items ++ put_text layer id answer.now) }
    ensures err { OnErr result (StartsWith out.new.items out.old.items) }
{
    push_number(out, b"put ", u64::from(layer))?;
    push_number(out, b" ", u64::from(id))?;
    push_both(out, b" ", taken_word(answer))?;
    push(out, b"\n")?;
    Ok(())
}

/// Appends the text of a drop: its layer, the id, and whether the feature stood there.
fn push_drop(out: &mut Vec<u8>, layer: u8, id: u32, gone: bool) -> Result<(), Memory>
    ensures ok { OnOk result (out.new.items ≡ out.old.items ++ drop_text layer id gone) }
    ensures err { OnErr result (StartsWith out.new.items out.old.items) }
{
    push_number(out, b"drop ", u64::from(layer))?;
    push_number(out, b" ", u64::from(id))?;
    push(out, if gone { b" gone\n" } else { b" none\n" })?;
    Ok(())
}

/// How a load ended, as its text says it.
fn end_text(end: LoadEnd) -> &'static [u8]
    ensures { result.now ≡ end_text end }
{
    match end {
        LoadEnd::End => b" end\n",
        LoadEnd::Fault => b" fault\n",
        LoadEnd::Limit => b" limit\n",
    }
}

/// Appends what a load did.
fn push_report(out: &mut Vec<u8>, report: &LoadReport) -> Result<(), Memory>
    ensures ok { OnOk result (out.new.items ≡ out.old.items ++ report_text report.now) }
    ensures err { OnErr result (StartsWith out.new.items out.old.items) }
{
    push_number(out, b" read ", u64::from(report.read))?;
    push_number(out, b" bad ", u64::from(report.bad))?;
    push_number(out, b" full ", u64::from(report.full))?;
    push(out, end_text(report.end))?;
    Ok(())
}

/// Appends the text of a load: its feed, its layer, and what it did.
fn push_load(out: &mut Vec<u8>, feed: u32, layer: u8, report: &LoadReport) -> Result<(), Memory>
    ensures ok { OnOk result (out.new.items ≡ out.old.items ++ load_text feed layer report.now) }
    ensures err { OnErr result (StartsWith out.new.items out.old.items) }
{
    push_number(out, b"load ", u64::from(feed))?;
    push_number(out, b" ", u64::from(layer))?;
    push_report(out, report)?;
    Ok(())
}

/// Appends the text of a limit.
fn push_limit(out: &mut Vec<u8>, n: u64) -> Result<(), Memory>
    ensures ok { OnOk result (out.new.items ≡ out.old.items ++ limit_text n) }
    ensures err { OnErr result (StartsWith out.new.items out.old.items) }
{
    push_number(out, b"limit ", n)?;
    push(out, b"\n")?;
    Ok(())
}

/// Appends the text of a publication, which is its number.
fn push_published(out: &mut Vec<u8>, k: u32) -> Result<(), Memory>
    ensures ok { OnOk result (out.new.items ≡ out.old.items ++ published_text k) }
    ensures err { OnErr result (StartsWith out.new.items out.old.items) }
{
    push_number(out, b"published ", u64::from(k))?;
    push(out, b"\n")?;
    Ok(())
}

/// After want of memory cuts the bytes back to the first `start`, which stood there before.
fn undo_failed(out: &mut Vec<u8>, start: usize, written: Result<(), Memory>) -> Result<(), Memory>
    ensures answer { result ≡ written }
    ensures ok { OnOk written (out.new.items ≡ out.old.items) }
    ensures err { OnErr written (out.new.items ≡ take start out.old.items) }
{
    if written.is_err() {
        out.truncate(start);
    }
    written
}

/// Appends the text of an ask: its lane, its place among the asks of its lane, counted from 0, and the reply.
pub fn write_reply(out: &mut Vec<u8>, lane: u8, place: u64, r: &Reply) -> Result<(), Memory>
    ensures ok { OnOk result (out.new.items ≡ out.old.items ++ reply_text lane place r.now) }
    ensures err { OnErr result (out.new.items ≡ out.old.items) }
{
    let start = out.len();
    let written = push_reply(out, lane, place, r);
    undo_failed(out, start, written)
}

/// Appends the text of an explained query: the reply, and behind a found answer how many partials its search opened and cut.
pub fn write_explain(out: &mut Vec<u8>, r: &Reply, opens: u64, cuts: u64) -> Result<(), Memory>
    ensures ok { OnOk result (out.new.items ≡ out.old.items ++ explain_text r.now opens cuts) }
    ensures err { OnErr result (out.new.items ≡ out.old.items) }
{
    let start = out.len();
    let written = push_explain(out, r, opens, cuts);
    undo_failed(out, start, written)
}

/// Appends the text of a query whose search went by given events: the reply, or the place of the first event that isn't
/// allowed, or the first root that isn't done.
pub fn write_replay(out: &mut Vec<u8>, r: &ReplayReply) -> Result<(), Memory>
    ensures ok { OnOk result (out.new.items ≡ out.old.items ++ replay_text r.now) }
    ensures err { OnErr result (out.new.items ≡ out.old.items) }
{
    let start = out.len();
    let written = push_replay(out, r);
    undo_failed(out, start, written)
}

/// Appends the text of a put: its layer, the id of its feature, and what it answers.
pub fn write_put(
    out: &mut Vec<u8>,
    layer: u8,
    id: u32,
    answer: &Result<Taken, PutFault>,
) -> Result<(), Memory>
    ensures ok { OnOk result (out.new.items ≡ out.old.items ++ put_text layer id answer.now) }
    ensures err { OnErr result (out.new.items ≡ out.old.items) }
{
    let start = out.len();
    let written = push_put(out, layer, id, answer);
    undo_failed(out, start, written)
}

/// Appends the text of a drop: its layer, the id, and whether the feature stood there.
pub fn write_drop(out: &mut Vec<u8>, layer: u8, id: u32, gone: bool) -> Result<(), Memory>
    ensures ok { OnOk result (out.new.items ≡ out.old.items ++ drop_text layer id gone) }
    ensures err { OnErr result (out.new.items ≡ out.old.items) }
{
    let start = out.len();
    let written = push_drop(out, layer, id, gone);
    undo_failed(out, start, written)
}

/// Appends the text of a load: its feed, its layer, and what it did.
pub fn write_load(
    out: &mut Vec<u8>,
    feed: u32,
    layer: u8,
    report: &LoadReport,
) -> Result<(), Memory>
    ensures ok { OnOk result (out.new.items ≡ out.old.items ++ load_text feed layer report.now) }
    ensures err { OnErr result (out.new.items ≡ out.old.items) }
{
    let start = out.len();
    let written = push_load(out, feed, layer, report);
    undo_failed(out, start, written)
}

/// Appends the text of a limit.
pub fn write_limit(out: &mut Vec<u8>, n: u64) -> Result<(), Memory>
    ensures ok { OnOk result (out.new.items ≡ out.old.items ++ limit_text n) }
    ensures err { OnErr result (out.new.items ≡ out.old.items) }
{
    let start = out.len();
    let written = push_limit(out, n);
    undo_failed(out, start, written)
}

/// Appends the text of a publication, which is its number.
pub fn write_published(out: &mut Vec<u8>, k: u32) -> Result<(), Memory>
    ensures ok { OnOk result (out.new.items ≡ out.old.items ++ published_text k) }
    ensures err { OnErr result (out.new.items ≡ out.old.items) }
{
    let start = out.len();
    let written = push_published(out, k);
    undo_failed(out, start, written)
}
