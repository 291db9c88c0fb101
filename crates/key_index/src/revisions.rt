//! The revisions of one key, in order (etcd: data model, generations of a key).
ghost use Rattle.std.specs.Prelude.{◌≡◌, List, [], ◌∷◌, ◌++◌, drop};
ghost use Rattle.std.specs.Prelude.{◌<◌, ◌≤◌, ◌-◌, ◌^◌, length, IfOk, IfSome, OnOk, OnErr};
ghost use Rattle.std.specs.Prelude.{MatchOption};
ghost use Rattle.std.specs.List.{slice_get};
ghost use Rattle.std.specs.VecDeque.{deque_capacity};
ghost use Rattle.kv_model.specs.Lists.{is_empty};
ghost use Rattle.kv_model.specs.History.{rev_lt, rev_le};
ghost use Rattle.key_index.specs.KeyRevisions.{IsBehind, IsRising, after_place, at_place};
ghost use Rattle.key_index.specs.KeyRevisions.{count_before, count_up_to, ends_in, ends_up_to};
ghost use Rattle.key_index.specs.KeyRevisions.{is_followed, is_oldest, is_rev, newest, second_after, undone, without};

use kv_model::version::Rev;
use std::alloc::{AllocError, Global};
use std::collections::VecDeque;
use std::marker::Model;

/// The revisions of a key, rising: those of its puts and of its tombstones.
#[derive(Drop)]
pub struct Revisions {
    held: Held,
}

/// What holds the revisions: most keys have just one, which takes no block of its own, so what is known
/// of a list stands in a block, too. A list has at least two, and goes where it falls below (the
/// invariant of `Revisions`).
#[derive(Drop)]
enum Held {
    Nothing,
    One(Rev),
    Many(Box<VecDeque<Rev>>),
}

impl Model for Revisions {
    ghost use Rattle.std.specs.Prelude.{List};
    ghost use Rattle.kv_model.specs.declared.version.Rev.{Rev};
    ghost use Rattle.key_index.specs.Held.{IsSettled, revisions_in};
    ghost use Rattle.key_index.specs.KeyRevisions.{IsRising};

    ghost Value = { List Rev };

    ghost view = { λ r. revisions_in r.held };

    ghost invariant = { λ r. IsRising (revisions_in r.held) × IsSettled r.held };
}

impl Revisions {
    /// One revision. Takes no memory.
    pub(crate) fn one(rev: Rev) -> Self
        ensures { result ≡ rev ∷ [] }
    {
        Revisions {
            held: Held::One(rev),
        }
    }

    /// Whether there is no revision.
    pub(crate) fn is_empty(&self) -> bool
        ensures { result ≡ is_empty self.now }
    {
        match &self.held {
            Held::Nothing => true,
            Held::One(_) => false,
            Held::Many(_) => false,
        }
    }

    /// The last revision that is not after a place, also where it is a tombstone. Takes no memory.
    ///
    /// Constant time where that is the newest, and else, by halving, logarithmic in the number of
    /// the key's revisions.
    pub fn at(&self, place: Rev) -> Option<Rev>
        ensures { result ≡ at_place place self.now }
    {
        match &self.held {
            Held::Nothing => None,
            Held::One(only) => {
                if is_up_to(*only, place) {
                    Some(*only)
                } else {
                    None
                }
            }
            Held::Many(revisions) => at(revisions, place),
        }
    }

    /// The first revision after a place, also where it is a tombstone. Takes no memory.
    ///
    /// Constant time where the place is that of the oldest revision, and else, by halving,
    /// logarithmic in the number of the key's revisions.
    pub fn after(&self, place: Rev) -> Option<Rev>
        ensures { result ≡ after_place place self.now }
    {
        match &self.held {
            Held::Nothing => None,
            Held::One(only) => {
                if is_before(place, *only) {
                    Some(*only)
                } else {
                    None
                }
            }
            Held::Many(revisions) => after(revisions, place),
        }
    }

    /// Whether the first revision after a place is of a main revision up to another. Takes no memory,
    /// and the time of `after`.
    pub(crate) fn is_followed(&self, place: Rev, main: u64) -> bool
        ensures { result ≡ is_followed place main self.now }
    {
        match self.after(place) {
            Some(next) => next.main <= main,
            None => false,
        }
    }

    /// How many of the revisions are of an earlier main revision. Takes no memory.
    ///
    /// It halves: the time is logarithmic in the number of the key's revisions.
    pub fn count_before(&self, main: u64) -> usize
        ensures { result ≡ count_before main self.now }
    {
        match &self.held {
            Held::Nothing => 0,
            Held::One(only) => { if only.main < main { 1 } else { 0 } }
            Held::Many(revisions) => count_before(revisions, main),
        }
    }

    /// The revision at an index, where the oldest one has the index 0. Constant time.
    pub fn get(&self, index: usize) -> Option<Rev>
        ensures value { result ≡ slice_get self.now index }
        ensures bound { IfSome result (λ _. index < 2 ^ 64 - 1) }
    {
        match &self.held {
            Held::Nothing => None,
            Held::One(only) => { if index == 0 { Some(*only) } else { None } }
            Held::Many(revisions) => rev_at(revisions, index),
        }
    }

    /// Whether the newest revision is not of a later main revision.
    pub(crate) fn ends_up_to(&self, main: u64) -> bool
        ensures { result ≡ ends_up_to main self.now }
    {
        match &self.held {
            Held::Nothing => true,
            Held::One(only) => only.main <= main,
            Held::Many(revisions) => ends_up_to(revisions, main),
        }
    }

    /// Adds a revision at the end. The second one takes a list.
    pub(crate) fn push(&mut self, alloc: Global, rev: Rev) -> Result<(), AllocError>
        requires { IsBehind rev self.old }
        ensures ok { OnOk result (self.new ≡ self.old ++ rev ∷ []) }
        ensures err { OnErr result (self.new ≡ self.old) }
    {
        match &mut self.held {
            Held::Nothing => {
                self.held = Held::One(rev);
            }
            Held::One(first) => {
                let revisions = Box::new(alloc, two(alloc, *first, rev)?)?;
                self.held = Held::Many(revisions);
            }
            Held::Many(revisions) => {
                revisions.push_back(rev)?;
            }
        }
        Ok(())
    }

    /// Drops the oldest revision. Takes no memory, and constant time.
    pub(crate) fn drop_front(&mut self)
        ensures { self.new ≡ drop 1 self.old }
    {
        self.held.drop_front();
        self.held.settle();
    }

    /// Drops a revision, and nothing where it is not there: the oldest at once, another by a walk
    /// over all. Takes no memory.
    pub(crate) fn drop_at(&mut self, rev: Rev)
        ensures { self.new ≡ without rev self.old }
    {
        self.held.drop_at(rev);
        self.held.settle();
    }

    /// Drops the revisions of a main revision at the end. Takes no memory.
    pub(crate) fn undo(&mut self, main: u64)
        ensures { self.new ≡ undone main self.old }
    {
        self.held.undo(main);
        self.held.settle();
    }
}

impl Held {
    ghost use Rattle.key_index.specs.Held.{IsSettled, revisions_in};

    /// Drops the oldest revision.
    fn drop_front(&mut self)
        ensures { revisions_in self.new ≡ drop 1 (revisions_in self.old) }
    {
        match self {
            Held::Nothing => {}
            Held::One(_) => {
                *self = Held::Nothing;
            }
            Held::Many(revisions) => drop_first(revisions),
        }
    }

    /// Drops a revision, and nothing where it is not there.
    fn drop_at(&mut self, rev: Rev)
        requires { IsRising (revisions_in self.old) }
        ensures { revisions_in self.new ≡ without rev (revisions_in self.old) }
    {
        match self {
            Held::Nothing => {}
            Held::One(only) => {
                if is_at(*only, rev) {
                    *self = Held::Nothing;
                }
            }
            Held::Many(revisions) => drop_at(revisions, rev),
        }
    }

    /// Drops the revisions of a main revision at the end.
    fn undo(&mut self, main: u64)
        ensures { revisions_in self.new ≡ undone main (revisions_in self.old) }
    {
        match self {
            Held::Nothing => {}
            Held::One(only) => {
                if only.main == main {
                    *self = Held::Nothing;
                }
            }
            Held::Many(revisions) => undo(revisions, main),
        }
    }

    /// Puts what is left of a list in place, where that is one revision or none: its block is
    /// freed.
    fn settle(&mut self)
        ensures same { revisions_in self.new ≡ revisions_in self.old }
        ensures settled { IsSettled self.new }
    {
        if let Some(few) = self.few() {
            *self = few;
        }
    }

    /// What holds the same revisions in place, where a list has one or none.
    fn few(&self) -> Option<Held>
        ensures { MatchOption result (IsSettled self.now)
            (λ few. IsSettled few × (revisions_in few ≡ revisions_in self.now)) }
    {
        match self {
            Held::Nothing | Held::One(_) => None,
            Held::Many(revisions) => Held::few_of(revisions),
        }
    }

    /// What holds the revisions of a list in place, where it has one or none.
    fn few_of(revisions: &VecDeque<Rev>) -> Option<Held>
        ensures { MatchOption result (2 ≤ length revisions.now.items)
            (λ few. IsSettled few × (revisions_in few ≡ revisions.now.items)) }
    {
        if revisions.len() >= 2 {
            return None;
        }
        match rev_at(revisions, 0) {
            Some(only) => Some(Held::One(only)),
            None => Some(Held::Nothing),
        }
    }
}

/// A list of two revisions, with room for two more.
fn two(alloc: Global, first: Rev, second: Rev) -> Result<VecDeque<Rev>, AllocError>
    ensures items { IfOk result (λ revisions. revisions.items ≡ first ∷ second ∷ []) }
    ensures room { IfOk result (λ revisions. deque_capacity revisions ≡ 4) }
{
    let mut revisions = VecDeque::with_capacity(alloc, 4)?;
    revisions.push_back(first)?;
    revisions.push_back(second)?;
    Ok(revisions)
}

/// The last of the revisions that is not after a place: the newest, where it is not, and else found
/// by halving.
fn at(revisions: &VecDeque<Rev>, place: Rev) -> Option<Rev>
    requires { IsRising revisions.now.items }
    ensures { result ≡ at_place place revisions.now.items }
{
    match newest(revisions) {
        Some(newest) => {
            if is_up_to(newest, place) {
                Some(newest)
            } else {
                search(revisions, place)
            }
        }
        None => None,
    }
}

/// The last of the revisions that is not after a place. It halves.
fn search(revisions: &VecDeque<Rev>, place: Rev) -> Option<Rev>
    requires { IsRising revisions.now.items }
    ensures { result ≡ at_place place revisions.now.items }
{
    match count_up_to(revisions, place).checked_sub(1) {
        Some(last) => rev_at(revisions, last),
        None => None,
    }
}

/// The first of the revisions after a place: the second, where the place is that of the oldest or
/// between the two, and else found by halving.
fn after(revisions: &VecDeque<Rev>, place: Rev) -> Option<Rev>
    requires { IsRising revisions.now.items }
    ensures { result ≡ after_place place revisions.now.items }
{
    match second_after(revisions, place) {
        Some(second) => Some(second),
        None => rev_at(revisions, count_up_to(revisions, place)),
    }
}

/// The second of the revisions, where it is the first after a place.
fn second_after(revisions: &VecDeque<Rev>, place: Rev) -> Option<Rev>
    ensures { result ≡ second_after place revisions.now.items }
{
    let oldest = rev_at(revisions, 0)?;
    let second = rev_at(revisions, 1)?;
    if is_up_to(oldest, place) && is_before(place, second) {
        Some(second)
    } else {
        None
    }
}

/// Drops the oldest revision.
fn drop_first(revisions: &mut VecDeque<Rev>)
    ensures { revisions.new.items ≡ drop 1 revisions.old.items }
{
    let _ = revisions.pop_front();
    lighten(revisions);
}

/// Gives room back where seven of eight places stand empty, and keeps twice that of what is left: so
/// a key that was put often does not keep the room of all that went.
fn lighten(revisions: &mut VecDeque<Rev>)
    ensures { revisions.new.items ≡ revisions.old.items }
{
    if revisions.len() <= revisions.capacity() / 8 {
        revisions.shrink_to(revisions.len() * 2);
    }
}

/// Drops a revision: the oldest at once, another by a walk over all.
fn drop_at(revisions: &mut VecDeque<Rev>, rev: Rev)
    requires { IsRising revisions.old.items }
    ensures { revisions.new.items ≡ without rev revisions.old.items }
{
    if is_oldest(revisions, rev) {
        drop_first(revisions);
    } else {
        keep_others(revisions, rev);
    }
}

/// Whether a revision is another one.
fn is_at(left: Rev, right: Rev) -> bool
    ensures { result ≡ is_rev right left }
{
    left == right
}

/// Drops the revisions of a main revision at the end.
fn undo(revisions: &mut VecDeque<Rev>, main: u64)
    ensures { revisions.new.items ≡ undone main revisions.old.items }
{
    while ends_in(revisions, main) {
        let _ = revisions.pop_back();
    }
}

/// The last revision.
fn newest(revisions: &VecDeque<Rev>) -> Option<Rev>
    ensures { result ≡ newest revisions.now.items }
{
    revisions.back().copied()
}

/// Whether the last revision is of a main revision.
fn ends_in(revisions: &VecDeque<Rev>, main: u64) -> bool
    ensures { result ≡ ends_in main revisions.now.items }
{
    match newest(revisions) {
        Some(newest) => newest.main == main,
        None => false,
    }
}

/// Whether the last revision is not of a later main revision.
fn ends_up_to(revisions: &VecDeque<Rev>, main: u64) -> bool
    ensures { result ≡ ends_up_to main revisions.now.items }
{
    match newest(revisions) {
        Some(newest) => newest.main <= main,
        None => true,
    }
}

/// Whether a revision stands before another, by main and then by sub.
fn is_before(left: Rev, right: Rev) -> bool
    ensures { result ≡ rev_lt left right }
{
    left.cmp(&right).is_lt()
}

/// Whether a revision is another or stands before it.
fn is_up_to(left: Rev, right: Rev) -> bool
    ensures { result ≡ rev_le left right }
{
    left.cmp(&right).is_le()
}

/// The revision at an index.
fn rev_at(revisions: &VecDeque<Rev>, place: usize) -> Option<Rev>
    ensures value { result ≡ slice_get revisions.now.items place }
    ensures bound { IfSome result (λ _. place < 2 ^ 64 - 1) }
{
    revisions.get(place).copied()
}

/// Whether the first of the revisions is this one.
fn is_oldest(revisions: &VecDeque<Rev>, rev: Rev) -> bool
    ensures { result ≡ is_oldest rev revisions.now.items }
{
    match rev_at(revisions, 0) {
        Some(oldest) => oldest == rev,
        None => false,
    }
}

/// Keeps the revisions that are others than this one.
fn keep_others(revisions: &mut VecDeque<Rev>, rev: Rev)
    ensures { revisions.new.items ≡ without rev revisions.old.items }
{
    revisions.retain(|other| !(*other == rev));
}

/// How many of the revisions, which rise, are not after a place. It halves.
fn count_up_to(revisions: &VecDeque<Rev>, place: Rev) -> usize
    requires { IsRising revisions.now.items }
    ensures { result ≡ count_up_to place revisions.now.items }
{
    revisions.partition_point(|rev| is_up_to(*rev, place))
}

/// How many of the revisions, which rise, are of an earlier main revision. It halves.
fn count_before(revisions: &VecDeque<Rev>, main: u64) -> usize
    requires { IsRising revisions.now.items }
    ensures { result ≡ count_before main revisions.now.items }
{
    revisions.partition_point(|rev| rev.main < main)
}
