//! Phrases and the runs that find them.

use geo_text::text::Text;
use phrase_index::index::PhraseIndex;
use phrase_index::rising::is_rising;
use std::alloc::Global;
use std::process::Abort;

/// The index of these texts, which rise.
fn index_of(rt: &impl Abort, list: Vec<Text>) -> PhraseIndex {
    assert!(rt; is_rising(&list));
    assert!(rt; list.len() < 4_294_967_296);
    PhraseIndex::build(list).expect(rt, "memory")
}

#[test]
fn runs_find_their_phrases(rt: HostRuntime) {
    let alloc = rt.alloc();
    let mut list = Vec::new(alloc);
    for name in ["new york", "newark", "nyc"] {
        list.push(Text::of(alloc, name).expect(&rt, "memory"))
            .expect(&rt, "memory");
    }
    let index = index_of(&rt, list);
    assert!(rt; index.len() == 3);
    assert!(rt; index.exact("newark") == Some(1));
    assert!(rt; index.exact("new") == None);
    assert!(rt; index.prefix("new") == (0..2));
    assert!(rt; index.prefix("ny") == (2..3));
    assert!(rt; index.prefix("z") == (3..3));
    let first = index.phrase(0).expect(&rt, "memory");
    assert!(rt; first.as_str() == "new york");
}
