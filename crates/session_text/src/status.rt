//! How a session ends.

ghost use Rattle.std.specs.Prelude.{◌≡◌, ◌↔◌, IsTrue};
ghost use Rattle.session_text.specs.Status.{exit_number, status_text, why_text};
ghost use Rattle.session_text.specs.declared.status.Status.TheVariants.{BadLine};
ghost use Rattle.session_text.specs.declared.why.Why.TheVariants.{Layer, Feature};

use crate::why::Why;
use arrayvec::ArrayString;
use feature_reader::feature::FeatureFault;
use geo_layer::layer::LayerFault;
use itoa::Buffer;

/// How a session ends.
#[derive(Clone, Copy, Debug, PartialEq, Eq)]
pub enum Status {
    /// The `end` line was read, and all answers are written.
    Done,
    /// The words of the command line aren't understood.
    Usage,
    /// This line, counted from 1, is the first that is refused.
    BadLine { line: u64, why: Why },
    /// The bytes ended before an `end` line.
    Unended,
    /// As many bytes as a session may have were read, and no line of them is refused or `end`.
    TooMuch,
    /// A read failed.
    ReadFault,
    /// A write failed.
    WriteFault,
    /// Room was asked for and refused.
    Memory,
}

impl Status {
    /// Whether the two are the same.
    pub fn is(&self, other: &Status) -> bool
        ensures { IsTrue result ↔ (self.now ≡ other.now) }
    {
        self == other
    }
}

impl Status {
    /// The exit status of the process: 0 for `Done`, 1 for `Usage`, 2 for `BadLine`, 3 for `Unended`,
    /// 4 for `TooMuch`, 5 for `ReadFault`, 6 for `WriteFault` and 7 for `Memory`.
    pub fn number(&self) -> u8
        ensures { result ≡ exit_number self.now }
    {
        match self {
            Status::Done => 0,
            Status::Usage => 1,
            Status::BadLine { .. } => 2,
            Status::Unended => 3,
            Status::TooMuch => 4,
            Status::ReadFault => 5,
            Status::WriteFault => 6,
            Status::Memory => 7,
        }
    }
}

/// What is told of a status, without a line feed; nothing of `Done`. No memory is taken.
pub fn status_text(s: &Status) -> ArrayString<128>
    ensures { result.bytes ≡ status_text s.now }
{
    let mut text = ArrayString::new();
    match s {
        Status::Done => {}
        Status::Usage => text.push_str("carmen: usage"),
        Status::BadLine { line, why } => return bad_line(*line, *why),
        Status::Unended => text.push_str("carmen: no end line"),
        Status::TooMuch => text.push_str("carmen: too much input"),
        Status::ReadFault => text.push_str("carmen: read fault"),
        Status::WriteFault => text.push_str("carmen: write fault"),
        Status::Memory => text.push_str("carmen: out of memory"),
    }
    text
}

/// What is told of a line that is refused.
fn bad_line(line: u64, why: Why) -> ArrayString<128>
    ensures { result.bytes ≡ status_text (BadLine line why) }
{
    let mut buffer = Buffer::new();
    let mut text = ArrayString::new();
    text.push_str("carmen: line ");
    text.push_str(buffer.format(line));
    text.push_str(": ");
    text.push_str(why_text(why));
    text
}

/// The number and the name of a fault, and of the fault in it.
fn why_text(why: Why) -> &'static str
    ensures { result.now ≡ why_text why }
{
    match why {
        Why::Long => "1 Long",
        Why::Utf8 => "2 Utf8",
        Why::Head => "3 Head",
        Why::Word => "4 Word",
        Why::Form => "5 Form",
        Why::Lang => "6 Lang",
        Why::Layer(fault) => layer_why_text(fault),
        Why::Number => "8 Number",
        Why::Feed => "9 Feed",
        Why::Feature(fault) => feature_why_text(fault),
        Why::Asks => "11 Asks",
    }
}

/// The number and the name of the fault of a layer's line.
fn layer_why_text(fault: LayerFault) -> &'static str
    ensures { result.now ≡ why_text (Layer fault) }
{
    match fault {
        LayerFault::Json => "7 Layer 1 Json",
        LayerFault::Name => "7 Layer 2 Name",
        LayerFault::Zoom => "7 Layer 3 Zoom",
        LayerFault::Falling => "7 Layer 4 Falling",
        LayerFault::Stack => "7 Layer 5 Stack",
        LayerFault::Tokens => "7 Layer 6 Tokens",
        LayerFault::TooMany => "7 Layer 7 TooMany",
        LayerFault::ScoreMax => "7 Layer 8 ScoreMax",
    }
}

/// The number and the name of the fault of a put.
fn feature_why_text(fault: FeatureFault) -> &'static str
    ensures { result.now ≡ why_text (Feature fault) }
{
    match fault {
        FeatureFault::Json => "10 Feature 1 Json",
        FeatureFault::Id => "10 Feature 2 Id",
        FeatureFault::Text => "10 Feature 3 Text",
        FeatureFault::Zxy => "10 Feature 4 Zxy",
        FeatureFault::Zoom => "10 Feature 5 Zoom",
        FeatureFault::Score => "10 Feature 6 Score",
        FeatureFault::Relev => "10 Feature 7 Relev",
    }
}
