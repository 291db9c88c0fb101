//! A compare of a Txn.
ghost use Rattle.std.specs.Prelude.{◌≡◌};
ghost use Rattle.gateway_read.specs.Values.{view};
ghost use Rattle.kv_model.specs.declared.call.Relation.TheVariants.{IsEqual};
ghost use Rattle.kv_model.specs.Requests as requests;
ghost use Rattle.gateway_read.specs.Compares.{target_of, operand_read, compared};
ghost use Rattle.gateway_read.specs.Fields.{snake_of};
ghost use Rattle.gateway_read.specs.Objects.{seen};
ghost use Rattle.gateway_read.specs.Reading.{Gives, Tells};

use crate::bad::Bad;
use crate::field::Field;
use crate::members::{bytes_field, enum_field, integer_field, object_under};
use crate::object::Object;
use json::Value;
use kv_model::call::{Compare, Operand, Relation};
use kv_model::version::KeyRange;
use std::alloc::Global;

/// What a compare looks at.
#[derive(Clone, Copy)]
enum Target {
    Version,
    Create,
    Mod,
    Value,
    Lease,
}

const RELATIONS: [(&str, Relation); 4] = [
    ("EQUAL", Relation::IsEqual),
    ("GREATER", Relation::IsGreater),
    ("LESS", Relation::IsLess),
    ("NOT_EQUAL", Relation::IsNotEqual),
];

/// Reads one compare: `result`, `target`, `key`, `range_end` and each operand, in the order of the
/// etcd documentation's Compare. The operand that the target names counts, and the others are read
/// and ignored. The first fault counts: `BadField` or `BadBase64`, and `BadField(Compare)` for a
/// value that is no object. `Memory` comes where a growth finds no memory.
#[tactic(auto, unfolding(kv_model::specs::Requests::compare_request, crate::specs::Fields::snake_of, crate::specs::Compares::compared))]
pub(crate) fn compare_request(alloc: Global, value: &Value) -> Result<Compare, Bad>
    ensures { Gives (λ compare. compare) result (requests.compare_request (view value.now)) }
{
    let object = &object_under(value, Field::Compare)?;
    let relation = enum_field(object, Field::Result, Relation::IsEqual, &RELATIONS)?;
    let target = target_field(object)?;
    let key = bytes_field(alloc, object, Field::Key)?;
    let end = bytes_field(alloc, object, Field::RangeEnd)?;
    compared(alloc, object, KeyRange { key, end }, relation, target)
}

const TARGETS: [(&str, Target); 5] = [
    ("VERSION", Target::Version),
    ("CREATE", Target::Create),
    ("MOD", Target::Mod),
    ("VALUE", Target::Value),
    ("LEASE", Target::Lease),
];

/// What the compare looks at: the version, where it does not say.
fn target_field(object: &Object<'_, '_>) -> Result<Target, Bad>
    ensures { Tells target_of result
        (requests.field requests.Target.to_version (requests.enum_of requests.targets)
        (snake_of Field.Target) (seen object.now)) }
{
    enum_field(object, Field::Target, Target::Version, &TARGETS)
}

/// The compare with what is left to read of it.
fn compared(
    alloc: Global,
    object: &Object<'_, '_>,
    range: KeyRange,
    relation: Relation,
    target: Target,
) -> Result<Compare, Bad>
    ensures { Gives (λ compare. compare) result
        (compared range relation (target_of target) (seen object.now)) }
{
    let operand = operand_of(alloc, object, target)?;
    Ok(Compare {
        range,
        relation,
        operand,
    })
}

/// The operand that the target names. Each operand is read.
#[tactic(auto, unfolding(crate::specs::Fields::snake_of, crate::specs::Compares::operand_read))]
fn operand_of(alloc: Global, object: &Object<'_, '_>, target: Target) -> Result<Operand, Bad>
    ensures { Gives (λ operand. operand) result
        (operand_read (target_of target) (seen object.now)) }
{
    let version = integer_field(object, Field::Version)?;
    let create = integer_field(object, Field::CreateRevision)?;
    let modified = integer_field(object, Field::ModRevision)?;
    let value = bytes_field(alloc, object, Field::Value)?;
    let lease = integer_field(object, Field::Lease)?;
    Ok(match target {
        Target::Version => Operand::OfVersion(version),
        Target::Create => Operand::OfCreate(create),
        Target::Mod => Operand::OfMod(modified),
        Target::Value => Operand::OfValue(value),
        Target::Lease => Operand::OfLease(lease),
    })
}
