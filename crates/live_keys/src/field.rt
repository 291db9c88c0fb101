//! What a compare looks at in a key-value.
ghost use Rattle.std.specs.Prelude.{◌≡◌};
ghost use Rattle.live_keys.specs.Fields as fields;
ghost use Rattle.range_view.specs.Replies.{kv_view};

use kv_model::call::Operand;
use range_view::reply::KvRef;
use std::cmp::Ordering;

/// What a compare looks at in a key-value.
#[derive(Clone, Copy, PartialEq, Eq)]
pub(crate) enum Field {
    Version,
    Create,
    Mod,
    Value,
    Lease,
}

/// What is looked at where the operand is this one.
pub(crate) fn field_of(operand: &Operand) -> Field
    ensures { result ≡ fields.field_of operand.now }
{
    match operand {
        Operand::OfVersion(_) => Field::Version,
        Operand::OfCreate(_) => Field::Create,
        Operand::OfMod(_) => Field::Mod,
        Operand::OfValue(_) => Field::Value,
        Operand::OfLease(_) => Field::Lease,
    }
}

/// How two key-values stand by what is looked at.
pub(crate) fn field_cmp(field: Field, a: &KvRef<'_>, b: &KvRef<'_>) -> Ordering
    ensures { result ≡ fields.field_cmp field (kv_view a.now) (kv_view b.now) }
{
    match field {
        Field::Version => a.version.cmp(&b.version),
        Field::Create => a.create.cmp(&b.create),
        Field::Mod => a.modified.cmp(&b.modified),
        Field::Value => a.value.cmp(&b.value),
        Field::Lease => a.lease.cmp(&b.lease),
    }
}
