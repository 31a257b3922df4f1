//! How often a search fetches cells.

use crate::answers::query_of;
use crate::places::{generation_of, table_of, two_layers};
use generation::generation::Generation;
use geo_base::cells::Cells;
use geo_base::job::Job;
use geo_base::refusal::Memory;
use geo_base::rows::Rows;
use geo_query::query::Query;
use phrase_match::laws::job_is_right;
use phrase_match::matching::matches;
use phrase_match::plain_rows::PlainRows;
use search_core::kept_rows::KeptRows;
use search_core::one::search_alone;
use std::alloc::Global;
use std::marker::Model;
use std::process::Abort;
use std::sync::Arc;

/// Rows that count how often cells are fetched.
#[derive(Drop)]
struct CountedRows<'a> {
    plain: PlainRows<'a>,
    fetched: u64,
}

impl<'a> Model for CountedRows<'a> {
    ghost use Rattle.phrase_match.specs.PlainRows.{PlainRowsView};

    ghost Value = { PlainRowsView };

    ghost view = { λ c. c.plain };
}

impl Rows for CountedRows<'_> {
    ghost use Rattle.phrase_match.specs.Job.{pieces_in, cells_in};

    ghost pieces = { λ r. pieces_in r.generation r.query };

    ghost cells = { λ r. cells_in r.generation r.query };

    ghost origin = { λ r. 0 };

    fn fetch(&mut self, job: &Job, piece: usize) -> Result<Arc<Cells>, Memory> {
        self.fetched = self.fetched.saturating_add(1);
        self.plain.fetch(job, piece)
    }
}

/// How often the search of a query fetches cells, and the number of its pieces.
fn fetches(rt: &impl Abort, alloc: Global, generation: &Generation, query: &Query) -> (u64, usize) {
    job_is_right();
    let _tokens = query.tokens(); // brings the rule of a query here
    let _number = generation.number(); // brings the rule of a generation here
    match matches(alloc, generation, query) {
        Ok(job) => {
            let rows = CountedRows {
                plain: PlainRows::new(alloc, generation, query),
                fetched: 0,
            };
            let pieces = job.pieces.as_slice().len();
            let mut rows = KeptRows::new(alloc, rows, pieces).expect(rt, "memory");
            let _found = search_alone(alloc, &job, &mut rows).expect(rt, "memory");
            (rows.rows().fetched, pieces)
        }
        Err(_) => panic!(rt; "no job"),
    }
}

#[test]
fn a_search_fetches_each_piece_once(rt: HostRuntime) {
    let alloc = rt.alloc();
    let head = two_layers(&rt, alloc);
    let table = table_of(&rt, alloc, &head);
    let generation = generation_of(&rt, alloc, &head, &table, 2_000_000);
    let query = query_of(&rt, alloc, "main street france");
    let (fetched, pieces) = fetches(&rt, alloc, &generation, &query);
    assert_eq!(rt; pieces, 2);
    assert_eq!(rt; fetched, 2);
}
