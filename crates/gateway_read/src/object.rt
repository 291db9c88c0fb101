//! An object, as the fields of a request are looked up in it.
ghost use Rattle.std.specs.Prelude.{◌≡◌, ℕ, length, min, option_map};
ghost use Rattle.serde_json.specs.Find as find;
ghost use Rattle.kv_model.specs.Requests as requests;
ghost use Rattle.gateway_read.specs.Lengths.{place_of, AreMarked};
ghost use Rattle.gateway_read.specs.Values.{view, members_of, members_data};
ghost use Rattle.json.specs.Value as tree;
ghost use Rattle.serde_json.specs.Data.{no_members};

use json::Value;

/// How many lengths of names are told apart: the last place is that of all longer names too.
const PLACES: usize = 32;

/// The members of an object, with the lengths of their names. Most of a request's fields are
/// absent, and most of those have a name of a length that no member's name has.
#[derive(Drop)]
pub(crate) struct Object<'v, 'a> {
    value: &'v Value<'a>,
    /// Whether a member's name has the length of this place.
    lengths: [bool; PLACES],
    ghost marked: { AreMarked lengths (members_of (view value.now)) },
}

impl<'v, 'a> Object<'v, 'a> {
    ghost use Rattle.gateway_read.specs.Objects.{seen};

    /// The members of a value that is an object, whose names are walked once. Takes no memory.
    pub(crate) fn of(value: &'v Value<'a>) -> Option<Self>
        ensures { option_map seen result ≡ requests.members_of (view value.now) }
    {
        match value {
            Value::Object(members) => Some(Object {
                value,
                lengths: lengths_of(members.as_slice()),
            }),
            _other => None,
        }
    }

    /// The value under a name: at once where no member's name has its length, and else by a search.
    pub(crate) fn get(&self, name: &str) -> Option<&'v Value<'a>>
        ensures { option_map (λ v. view v.now) result ≡ find.get_member name.now (seen self.now) }
    {
        if self.lengths[place(name)] {
            member(self.value, name)
        } else {
            None
        }
    }
}

/// The place of a name's length.
fn place(name: &str) -> usize
    ensures { result ≡ place_of name.now }
{
    name.len().min(PLACES - 1)
}

/// Which lengths the names have.
fn lengths_of(members: &[(&str, Value)]) -> [bool; PLACES]
    ensures { AreMarked result (members_data (tree.members_view members.now) no_members) }
{
    let mut lengths = [false; PLACES];
    for (name, _) in members {
        lengths[place(name)] = true;
    }
    lengths
}

/// The value under a name, the last one where several members have it.
fn member<'v, 'a>(value: &'v Value<'a>, name: &str) -> Option<&'v Value<'a>>
    ensures { option_map (λ v. view v.now) result
        ≡ find.get_member name.now (members_of (view value.now)) }
{
    value.get(name)
}
