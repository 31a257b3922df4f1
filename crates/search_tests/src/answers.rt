//! Answers by their definition, by the filter over the cells of a job, and by the search of the job.

ghost use Rattle.feature_reader.specs.Table.{IsOfHead};

use crate::places::{generation_of, table_of, two_layers};
use feature_reader::table::FeatureTable;
use generation::generation::Generation;
use geo_base::grids::Grids;
use geo_base::refusal::Refused;
use geo_layer::head::Head;
use geo_query::query::Query;
use geo_query::read_query::read_query;
use geo_query::reply::Reply;
use phrase_match::laws::job_is_right;
use phrase_match::matching::matches;
use phrase_match::plain_rows::PlainRows;
use plain_answer::answer::answer_plain;
use plain_answer::job_answer::answer_job;
use search_core::kept_rows::KeptRows;
use search_core::one::search_alone;
use session_text::write::write_reply;
use std::alloc::Global;
use std::process::Abort;

/// The query that a line spells.
pub fn query_of(rt: &impl Abort, alloc: Global, line: &str) -> Query {
    read_query(alloc, line).ok().expect(rt, "a query")
}

/// The text of a reply.
fn text_of(rt: &impl Abort, alloc: Global, reply: &Reply) -> Vec<u8> {
    let mut text = Vec::new(alloc);
    write_reply(&mut text, 0, 0, reply).expect(rt, "memory");
    text
}

/// The reply that refuses a query because of its grid count.
fn refusal(rt: &impl Abort, refused: Refused<Grids>) -> Reply {
    match refused {
        Refused::Fault(Grids { total, limit }) => Reply::Grids {
            generation: 0,
            total,
            limit,
        },
        Refused::Memory => panic!(rt; "want of memory"),
    }
}

/// The reply to a query by its definition.
fn plain_reply(
    rt: &impl Abort,
    alloc: Global,
    head: &Head,
    table: &FeatureTable,
    limit: u64,
    query: &Query,
) -> Reply
    requires { IsOfHead head.now table.now }
{
    match answer_plain(alloc, head, table, limit, query) {
        Ok(answer) => Reply::Found {
            generation: 0,
            answer,
        },
        Err(refused) => refusal(rt, refused),
    }
}

/// The reply of a generation to a query, by its job.
fn job_reply(rt: &impl Abort, alloc: Global, generation: &Generation, query: &Query) -> Reply {
    job_is_right();
    let _tokens = query.tokens(); // brings the rule of a query here
    let _number = generation.number(); // brings the rule of a generation here
    match matches(alloc, generation, query) {
        Ok(job) => {
            let mut rows = PlainRows::new(alloc, generation, query);
            Reply::Found {
                generation: 0,
                answer: answer_job(alloc, &job, &mut rows).expect(rt, "memory"),
            }
        }
        Err(refused) => refusal(rt, refused),
    }
}

/// The reply of a generation to a query, by the search of its job.
fn search_reply(rt: &impl Abort, alloc: Global, generation: &Generation, query: &Query) -> Reply {
    job_is_right();
    let _tokens = query.tokens(); // brings the rule of a query here
    let _number = generation.number(); // brings the rule of a generation here
    match matches(alloc, generation, query) {
        Ok(job) => {
            let plain = PlainRows::new(alloc, generation, query);
            let pieces = job.pieces.as_slice().len();
            let mut rows = KeptRows::new(alloc, plain, pieces).expect(rt, "memory");
            let found = search_alone(alloc, &job, &mut rows).expect(rt, "memory");
            Reply::Found {
                generation: 0,
                answer: found.top.into_answer(job.tokens),
            }
        }
        Err(refused) => refusal(rt, refused),
    }
}

/// Grid limits and queries.
const ASKS: [(u64, &str); 7] = [
    (2, "main street france"),
    (1, "lang=fr | paris"),
    (1, "lang=en | paris"),
    (1, "paris paris"),
    (180, "springfield"),
    (360, "lang=en | springfield"),
    (1000, "main street springfield france"),
];

#[test]
fn three_ways_give_one_answer(rt: HostRuntime) {
    let alloc = rt.alloc();
    let head = two_layers(&rt, alloc);
    let table = table_of(&rt, alloc, &head);
    for (limit, line) in ASKS {
        let query = query_of(&rt, alloc, line);
        let generation = generation_of(&rt, alloc, &head, &table, limit);
        let plain = plain_reply(&rt, alloc, &head, &table, limit, &query);
        let wanted = text_of(&rt, alloc, &plain);
        let by_filter = text_of(&rt, alloc, &job_reply(&rt, alloc, &generation, &query));
        let by_search = text_of(&rt, alloc, &search_reply(&rt, alloc, &generation, &query));
        assert!(rt; by_filter.as_slice() == wanted.as_slice(), "{line}");
        assert!(rt; by_search.as_slice() == wanted.as_slice(), "{line}");
    }
}
