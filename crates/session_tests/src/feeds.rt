//! Sessions whose feed fails.

use crate::sessions::{BASE_OUT, session_of, words_of};
use carmen_cli::top::carmen;
use feature_feed::feed::{Feed, FeedItem};
use feature_feed::memory_feed::MemoryFeed;
use feature_reader::raw::RawText;
use geo_outside::memory::{MemorySink, MemorySource};
use session_text::status::Status;
use std::alloc::Global;
use std::collections::VecDeque;
use std::test::Fail;

/// A feed of three features, whose pull of this number fails.
fn three_features(alloc: Global, fails: u64) -> Result<MemoryFeed, Fail> {
    let mut items = VecDeque::new(alloc);
    for text in [
        "{\"id\":5,\"properties\":{\"carmen:text\":\"a\",\"carmen:zxy\":[\"6/0/0\"]}}",
        "{\"id\":6,\"properties\":{\"carmen:text\":\"b\",\"carmen:zxy\":[\"6/0/0\"]}}",
        "{\"id\":7,\"properties\":{\"carmen:text\":\"c\",\"carmen:zxy\":[\"6/0/0\"]}}",
    ] {
        items.push_back(FeedItem::Json(RawText::from_vec(text.as_bytes().to_vec(alloc)?)))?;
    }
    Ok(MemoryFeed::new(items, [fails].to_vec(alloc)?))
}

#[test]
fn a_failed_pull_ends_its_load_and_not_the_session(rt: HostRuntime) -> Result<(), Fail> {
    let alloc = rt.alloc();
    let more = "load 0 2\ndrop 2 5\ndrop 2 6\ndrop 2 7\nend\n";
    for (fails, text) in [
        (
            1,
            "load 0 2 read 0 bad 0 full 0 fault\ndrop 2 5 none\ndrop 2 6 none\ndrop 2 7 none\n",
        ),
        (
            2,
            "load 0 2 read 1 bad 0 full 0 fault\ndrop 2 5 gone\ndrop 2 6 none\ndrop 2 7 none\n",
        ),
        (
            3,
            "load 0 2 read 2 bad 0 full 0 fault\ndrop 2 5 gone\ndrop 2 6 gone\ndrop 2 7 none\n",
        ),
        (
            4,
            "load 0 2 read 3 bad 0 full 0 fault\ndrop 2 5 gone\ndrop 2 6 gone\ndrop 2 7 gone\n",
        ),
        (
            5,
            "load 0 2 read 3 bad 0 full 0 end\ndrop 2 5 gone\ndrop 2 6 gone\ndrop 2 7 gone\n",
        ),
    ] {
        let words = words_of(alloc, &["plain"])?;
        let mut feeds: Vec<Box<dyn Feed>> = Vec::new(alloc);
        feeds.push(Box::new(alloc, three_features(alloc, fails)?)?)?;
        let mut source = MemorySource::new(session_of(alloc, more)?, Vec::new(alloc));
        let mut sink = MemorySink::new(alloc, Vec::new(alloc));
        let status = carmen(&rt, &words, &mut source, &mut sink, &mut feeds);
        let mut wanted = BASE_OUT.as_bytes().to_vec(alloc)?;
        wanted.extend_from_slice(text.as_bytes())?;
        assert!(rt; status.is(&Status::Done), "{fails}");
        assert!(rt; sink.bytes() == wanted.as_slice(), "{fails}");
    }
    Ok(())
}
