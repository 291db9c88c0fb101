//! A need for each of the versions that are kept.
use kv_model::version::Rev;
use std::marker::Model;

/// Why a version is kept: a question that no list without it answers in the same way.
#[derive(Clone, Copy, Debug, PartialEq, Eq)]
pub enum Need {
    /// A Range of the version's key at this revision shows the version.
    Range(u64),
    /// A watch of the version's key is told of the version at this revision.
    Watch(u64),
    /// A watch of the version's key, with previous values, is told of an event at this revision, and
    /// the version is the value before it.
    Prev(u64),
}

/// The version at this revision has this need.
#[derive(Debug, Drop)]
pub struct Claim {
    /// The version's revision.
    pub rev: Rev,
    /// What it is needed for.
    pub need: Need,
}

impl Model for Claim {
    ghost use Rattle.kv_model.specs.Certificates.{Claim as SeenClaim};

    ghost Value = { SeenClaim };

    ghost use Rattle.witness_core.specs.Seen.{seen_need};

    ghost view = { λ c. record { rev = c.rev; need = seen_need c.need } };
}

/// A claim for each of the versions of a dump, in their order.
#[derive(Debug, Drop)]
pub struct Certificate {
    /// The claims, the oldest version's first.
    pub claims: Vec<Claim>,
}

impl Model for Certificate {
    ghost use Rattle.std.specs.Prelude.{List};
    ghost use Rattle.kv_model.specs.Certificates.{Claim as SeenClaim};

    ghost Value = { List SeenClaim };

    ghost view = { λ c. c.claims.items };
}
