//! What the program tells of itself.

ghost use Rattle.std.specs.Prelude.{◌≡◌, map, string_bytes};
ghost use Rattle.carmen_cli.specs.Program.{about_of, about_text};

/// What is answered to `--help`.
pub const HELP: &str = "\
carmen: a forward geocoder over layers of places

usage:
  carmen plain [FEED..]   read a session on standard input, and answer it on standard output
  carmen replay [FEED..]  the same for a session that may also explain and replay queries
  carmen --help, -h       say this
  carmen --version, -V    say the version

A FEED is a file of places, which a line `load F L` of the session puts into layer L. The first
one is feed 0; there may be 16. All are opened before the session is read.
  json:PATH               a GeoJSON feature on each line
  csv:PATH                rows of the fields id,text,zxy,score

docs/FORMAT.md has the lines of a session, their faults and what they are answered with, and
the form of the feeds.

examples:
  $ printf 'carmen 1\\nlayer {\"name\":\"place\",\"zoom\":6}\\npublish\\nask 0 york\\nend\\n' | carmen plain
  published 1
  ask 0 0 gen 1 found 0
  $ printf '1,York,6/31/20,\\n' >york.csv
  $ printf 'carmen 1\\nlayer {\"name\":\"place\",\"zoom\":6}\\nload 0 0\\npublish\\nask 0 york\\nend\\n' >york
  $ carmen plain csv:york.csv <york
  load 0 0 read 1 bad 0 full 0 end
  published 1
  ask 0 0 gen 1 found 1
  context 10000/10000 score 0 0:1@6/31/20[0,1)=10000
  $ sed 's/ask 0/explain/' york | carmen replay csv:york.csv
  load 0 0 read 1 bad 0 full 0 end
  published 1
  explain gen 1 found 1
  context 10000/10000 score 0 0:1@6/31/20[0,1)=10000
  opens 1 cuts 0

exit status, told on standard error where it isn't 0:
  0  the session was read to its end, and all of it is answered
  1  the words aren't understood
  2  a line of the session is refused; its number and its fault are told
  3  the session ended before an `end` line
  4  the session has too many bytes
  5  reading standard input failed
  6  writing to standard output failed
  7  out of memory
  9  the file of a feed can't be opened; nothing is read
";

/// What is answered to `--version`.
pub const VERSION: &str = "carmen 0.1.0\n";

/// What the program may be asked to tell of itself.
#[derive(Clone, Copy, Debug, PartialEq, Eq)]
pub enum About {
    /// How it is used.
    Help,
    /// Its version.
    Version,
}

/// What the first word asks to be told, whatever follows it: the help for `--help` and `-h`, the version for `--version`
/// and `-V`; None where it is another word, or there is none.
pub fn about_of(words: &[String]) -> Option<About>
    ensures { result ≡ about_of (map string_bytes words.now) }
{
    let word = words.first()?.as_str();
    if word == "--help" || word == "-h" {
        return Some(About::Help);
    }
    if word == "--version" || word == "-V" {
        return Some(About::Version);
    }
    None
}

/// The text that is told, with a line feed at its end.
pub fn about_text(about: About) -> &'static str
    ensures { result.now ≡ about_text about }
{
    match about {
        About::Help => HELP,
        About::Version => VERSION,
    }
}
