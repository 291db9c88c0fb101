//! Where the connections of a server stand while no thread has them.
use crate::line::Line;
use engine_lock::EngineName;
use std::alloc::{AllocError, Global};
use std::sync::atomic::{AtomicBool, Ordering};
use std::sync::{Mutex, OnceLock, Wait};

/// How many places a page has.
const PAGE: usize = 1024;

/// How many pages there are at most.
const PAGES: usize = 1024;

/// A place.
#[derive(Drop)]
struct Place<L: EngineName> {
    /// The connection that stands there.
    line: Mutex<Option<Box<Line<L>>>>,
    /// Whether a thread that was told of the connection did not find it there.
    news: AtomicBool,
}

/// Some places.
#[derive(Drop)]
struct Page<L: EngineName> {
    places: Vec<Place<L>>,
}

impl<L: EngineName> Page<L> {
    /// Places that nothing stands at.
    fn new(alloc: Global) -> Result<Page<L>, AllocError> {
        let mut places = Vec::with_capacity(alloc, PAGE)?;
        for _ in 0..PAGE {
            places.push(Place {
                line: Mutex::new(None),
                news: AtomicBool::new(false),
            })?;
        }
        Ok(Page { places })
    }
}

/// A place for each file that the system gives a number below 2^20: the connection whose socket has
/// that number stands there while no thread has it. So two never stand at one, and none is looked for.
/// Pages of places are made as numbers come.
#[derive(Drop)]
pub(crate) struct Slots<L: EngineName> {
    pages: Vec<OnceLock<Page<L>>>,
}

impl<L: EngineName> Slots<L> {
    /// No connection stands anywhere. Fails for want of memory.
    pub(crate) fn new(alloc: Global) -> Result<Slots<L>, AllocError> {
        let mut pages = Vec::with_capacity(alloc, PAGES)?;
        for _ in 0..PAGES {
            pages.push(OnceLock::new())?;
        }
        Ok(Slots { pages })
    }

    /// Sees to it that there is such a place; says whether there is.
    pub(crate) fn has_room<R: Wait>(&self, rt: &R, alloc: Global, place: usize) -> bool {
        let Some(page) = self.pages.get(place / PAGE) else {
            return false;
        };
        if page.get().is_some() {
            return true;
        }
        match Page::new(alloc) {
            Ok(made) => {
                let _ = page.set(rt, made);
                true
            }
            Err(_) => false,
        }
    }

    /// The place of a number, if there is one.
    fn at(&self, place: usize) -> Option<&Place<L>> {
        let page = self.pages.get(place / PAGE)?.get()?;
        page.places.get(place % PAGE)
    }

    /// Has a connection stand at its place; hands it back where there is no such place.
    pub(crate) fn put<R: Wait>(
        &self,
        rt: &R,
        place: usize,
        line: Box<Line<L>>,
    ) -> Option<Box<Line<L>>> {
        let Some(slot) = self.at(place) else {
            return Some(line);
        };
        let mut slot = slot.line.lock(rt);
        *slot = Some(line);
        None
    }

    /// The connection that stands at a place, if one does; none does there then. Where none does, whoever
    /// puts it back is told that somebody looked.
    pub(crate) fn take<R: Wait>(&self, rt: &R, place: usize) -> Option<Box<Line<L>>> {
        let slot = self.at(place)?;
        if let Some(line) = slot.line.lock(rt).take() {
            return Some(line);
        }
        slot.news.store(true, Ordering::SeqCst);
        slot.line.lock(rt).take()
    }

    /// Whether somebody looked for the connection at a place and did not find it, since this was asked
    /// last. Who puts it back asks this behind that.
    pub(crate) fn take_news(&self, place: usize) -> bool {
        match self.at(place) {
            Some(slot) => slot.news.swap(false, Ordering::SeqCst),
            None => false,
        }
    }

    /// Ages each connection that stands at its place.
    pub(crate) fn age<R: Wait>(&self, rt: &R, ages: Ages) {
        for page in self.pages.iter() {
            if let Some(page) = page.get() {
                for slot in page.places.iter() {
                    if let Some(line) = slot.line.lock(rt).as_mut() {
                        line.age(ages);
                    }
                }
            }
        }
    }
}

/// How connections age.
#[derive(Clone, Copy)]
pub(crate) struct Ages {
    /// After so many looks one of which the client has taken no byte is over.
    pub(crate) unsent: u32,
    /// After so many looks one is over of which a request has begun to come, and no byte more; where
    /// the server does not end, none is.
    pub(crate) unread: Option<u32>,
}
