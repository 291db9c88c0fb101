//! What a command, a request or a watch was answered.
use gateway_text::{lost_text, memory_text, refusal_body};
use kv_model::refusal::Refusal;
use kv_model::version::Rev;
use witness_core::{Certificate, Dump};

/// A reply: an HTTP status, and the bytes of a JSON body.
#[derive(Debug, Drop)]
pub struct Reply {
    pub status: u16,
    pub body: ReplyBody,
}

/// The bytes of a reply's body.
#[derive(Debug, Drop)]
pub enum ReplyBody {
    /// They were made for this reply.
    Made(Vec<u8>),
    /// They are those of a refusal, which are fixed.
    Of(Refusal),
}

/// How a request ended.
#[derive(Debug, Drop)]
pub enum Settled {
    /// It was answered, be it by a refusal.
    Reply(Reply),
    /// It found no memory and changed nothing.
    Memory,
    /// It changed the store, which is at this revision since, and found no memory for its answer.
    Lost(u64),
}

/// The outcome of a command.
#[derive(Debug, Drop)]
pub struct Outcome {
    pub settled: Settled,
    /// The new revision, where it rose.
    pub raised: Option<u64>,
    /// The number of a watch that was made.
    pub watch: Option<u64>,
    /// It is an accepted Compact whose answer waits until trimming is done (the etcd
    /// documentation's CompactionRequest: physical). Whoever hands the answer on makes the steps
    /// first, by `Core::trim_step`, as a run does.
    pub waits: bool,
}

/// What a watch was told.
#[derive(Debug, Drop)]
pub enum Message {
    /// No watch has the number.
    NoWatch,
    /// It is caught up.
    Nothing,
    /// The bytes of a JSON text: events, or that it is cancelled.
    Text(Vec<u8>),
}

/// What a trimming step did.
#[derive(Debug, Drop)]
pub enum Trimmed {
    /// The version at this revision was taken out.
    Removed(Rev),
    /// The version at this revision stays.
    Kept(Rev),
    /// No version was left to visit: the fewest versions are kept.
    Done {
        /// How many are kept, those above the compaction too.
        count: u64,
        /// Their certificate, which has passed its check. None where no memory was found for it.
        certificate: Option<Certificate>,
    },
}

/// What is kept, and its certificate.
#[derive(Debug, Drop)]
pub struct Certified {
    /// The versions that are kept, and the numbers beside them.
    pub dump: Dump,
    /// In order, a need for each of them that has one.
    pub certificate: Certificate,
}

impl ReplyBody {
    ghost use Rattle.std.specs.Prelude.{◌≡◌};
    ghost use Rattle.json_gateway.specs.Outcomes.{body_of};

    /// The bytes. Takes no memory.
    pub fn as_slice(&self) -> &[u8]
        ensures { result.now ≡ body_of self.now }
    {
        match self {
            ReplyBody::Made(bytes) => bytes.as_slice(),
            ReplyBody::Of(refusal) => refusal_body(*refusal),
        }
    }
}

impl Settled {
    ghost use Rattle.std.specs.Prelude.{◌≡◌};
    ghost use Rattle.json_gateway.specs.Outcomes.{wire_response};

    /// The HTTP status and the body. The two texts of status 500 are fixed. Takes no memory.
    pub fn wire(&self) -> (u16, &[u8])
        ensures status { result.0 ≡ (wire_response self.now).status }
        ensures body { result.1.now ≡ (wire_response self.now).body }
    {
        match self {
            Settled::Reply(reply) => (reply.status, reply.body.as_slice()),
            Settled::Memory => (500, memory_text()),
            Settled::Lost(_) => (500, lost_text()),
        }
    }
}
