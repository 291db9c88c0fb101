//! The enums of a Range.
ghost use Rattle.std.specs.Prelude.{◌≡◌};
ghost use Rattle.kv_model.specs.Requests as requests;
ghost use Rattle.kv_model.specs.declared.call.SortOrder.TheVariants.{Unsorted};
ghost use Rattle.kv_model.specs.declared.call.SortTarget.TheVariants.{ByKey};
ghost use Rattle.gateway_read.specs.Fields.{snake_of};
ghost use Rattle.gateway_read.specs.Objects.{seen};
ghost use Rattle.gateway_read.specs.Reading.{Tells};

use crate::bad::Bad;
use crate::field::Field;
use crate::members::enum_field;
use crate::object::Object;
use kv_model::call::{SortOrder, SortTarget};

const SORT_ORDERS: [(&str, SortOrder); 3] = [
    ("NONE", SortOrder::Unsorted),
    ("ASCEND", SortOrder::Ascend),
    ("DESCEND", SortOrder::Descend),
];

const SORT_TARGETS: [(&str, SortTarget); 5] = [
    ("KEY", SortTarget::ByKey),
    ("VERSION", SortTarget::ByVersion),
    ("CREATE", SortTarget::ByCreate),
    ("MOD", SortTarget::ByMod),
    ("VALUE", SortTarget::ByValue),
];

pub(crate) fn sort_order(object: &Object<'_, '_>) -> Result<SortOrder, Bad>
    ensures { Tells (λ order. order) result
        (requests.field Unsorted (requests.enum_of requests.sort_orders) (snake_of Field.SortOrder)
        (seen object.now)) }
{
    enum_field(object, Field::SortOrder, SortOrder::Unsorted, &SORT_ORDERS)
}

pub(crate) fn sort_target(object: &Object<'_, '_>) -> Result<SortTarget, Bad>
    ensures { Tells (λ target. target) result
        (requests.field ByKey (requests.enum_of requests.sort_targets) (snake_of Field.SortTarget)
        (seen object.now)) }
{
    enum_field(object, Field::SortTarget, SortTarget::ByKey, &SORT_TARGETS)
}
