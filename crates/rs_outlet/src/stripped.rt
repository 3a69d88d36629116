//! Routes that rules changed, for outlets that turn one after the other: what the same patterns leave of the same
//! attributes is made once, and all clients that are told of it share one copy.

ghost use Rattle.std.specs.Prelude.{◌≡◌, Some, IfOk, IfSome};
ghost use Rattle.std.specs.Arc.{arc_value};
ghost use Rattle.rs_attrs.specs.Stripping.{Taken, stripped_of, taken_by, taken_by_owner};
ghost use Rattle.rs_outlet.specs.Decided.Rests.{AreRests, IsRest};
ghost use Rattle.rs_outlet.specs.declared.stripped.Rest.{Rest};

use rs_attrs::{Attrs, OwnedStrip, Strip, stripped};
use std::alloc::{AllocError, Global};
use std::sync::Arc;

/// How many rests a line has at most.
const MOST: usize = 262_144;

/// By how many strips rests are kept, the last of which makes way for another.
const STRIPS: usize = 16;

/// What is left of a route that was met at the prefix of a number.
#[derive(Drop)]
pub(crate) struct Rest {
    number: u32,
    whole: Arc<Attrs>,
    rest: Arc<Attrs>,
}

/// Rests by rising number, as outlets go over what was touched.
#[derive(Drop)]
pub(crate) struct Line {
    rests: Vec<Rest>,
    /// Where the next one is looked for.
    next: usize,
}

/// What the patterns of a strip left of routes. An outlet puts into the second line what it meets between those of
/// the first.
#[derive(Drop)]
pub(crate) struct Rests {
    strip: OwnedStrip,
    first: Line,
    second: Line,
    /// The one that was made last.
    last: Option<Rest>,
    ghost first_left: { AreRests (taken_by_owner strip) first.rests.items },
    ghost second_left: { AreRests (taken_by_owner strip) second.rests.items },
    ghost last_left: { (r : Rest) → last ≡ Some r → IsRest (taken_by_owner strip) r },
}

/// Routes that rules changed, by what these take out.
#[derive(Drop)]
pub(crate) struct Stripped {
    alloc: Global,
    by: Vec<Rests>,
}

/// The last place from one on that was met at no greater number; the first one where there is none.
fn last_until(rests: &[Rest], from: usize, number: u32) -> usize {
    for at in from..rests.len() {
        match rests.get(at + 1) {
            Some(next) if next.number <= number => {}
            _ => return at,
        }
    }
    from
}

impl Rest {
    /// What is left of these attributes, if it is they that were changed.
    fn of(&self, attrs: &Attrs) -> Option<&Arc<Attrs>>
        ensures { (taken : Taken) → IsRest taken self.now → IfSome result (λ rest. arc_value rest.now ≡ stripped_of taken attrs.now) }
    {
        if *self.whole == *attrs {
            Some(&self.rest)
        } else {
            None
        }
    }

    /// A copy, which shares the attributes.
    fn copy(&self) -> Result<Rest, AllocError>
        ensures { (taken : Taken) → IsRest taken self.now → IfOk result (IsRest taken) }
    {
        Ok(Rest {
            number: self.number,
            whole: self.whole.clone()?,
            rest: self.rest.clone()?,
        })
    }
}

impl Line {
    fn new(alloc: Global) -> Line
        ensures { (taken : Taken) → AreRests taken result.rests.items }
    {
        Line {
            rests: Vec::new(alloc),
            next: 0,
        }
    }

    /// Another outlet goes over what was touched.
    fn begin(&mut self)
        ensures { self.new.rests.items ≡ self.old.rests.items }
    {
        self.next = 0;
    }

    /// Goes on to a number, which is greater than those before.
    fn seek(&mut self, number: u32)
        ensures { self.new.rests.items ≡ self.old.rests.items }
    {
        self.next = last_until(&self.rests, self.next, number);
    }

    /// What is left of these attributes, if it was met here.
    fn find(&self, attrs: &Attrs) -> Option<&Arc<Attrs>>
        ensures { (taken : Taken) → AreRests taken self.now.rests.items → IfSome result (λ rest. arc_value rest.now ≡ stripped_of taken attrs.now) }
    {
        self.rests.get(self.next)?.of(attrs)
    }

    /// Whether one that was met at this number may stand behind the others.
    fn ends_before(&self, number: u32) -> bool {
        match self.rests.last() {
            Some(last) => last.number < number && self.rests.len() < MOST,
            None => true,
        }
    }

    /// Puts one behind the others, if there is memory for it.
    fn put(&mut self, rest: Rest)
        ensures { (taken : Taken) → AreRests taken self.old.rests.items → IsRest taken rest → AreRests taken self.new.rests.items }
    {
        let _ = self.rests.push(rest);
    }
}

impl Rests {
    fn new(alloc: Global, strip: &Strip<'_>) -> Result<Rests, AllocError>
        ensures { IfOk result (λ rests. taken_by_owner rests.strip ≡ taken_by strip.now) }
    {
        Ok(Rests {
            strip: OwnedStrip::of(alloc, strip)?,
            first: Line::new(alloc),
            second: Line::new(alloc),
            last: None,
        })
    }

    /// Another outlet goes over what was touched.
    fn begin(&mut self) {
        self.first.begin();
        self.second.begin();
    }

    /// Goes on to a number, which is greater than those before.
    fn seek(&mut self, number: u32)
        ensures { self.new.strip ≡ self.old.strip }
    {
        self.first.seek(number);
        self.second.seek(number);
    }

    /// What is left of these attributes, if it is known.
    fn find(&self, attrs: &Attrs) -> Option<&Arc<Attrs>>
        ensures { IfSome result (λ rest. arc_value rest.now ≡ stripped_of (taken_by_owner self.now.strip) attrs.now) }
    {
        if let Some(last) = &self.last {
            if let Some(rest) = last.of(attrs) {
                return Some(rest);
            }
        }
        if let Some(rest) = self.first.find(attrs) {
            return Some(rest);
        }
        self.second.find(attrs)
    }

    /// Keeps one in a line, if it comes behind those there.
    fn keep(&mut self, rest: Rest)
        requires { IsRest (taken_by_owner self.old.strip) rest }
        ensures { self.new.strip ≡ self.old.strip }
    {
        if self.first.ends_before(rest.number) {
            self.first.put(rest);
        } else if self.second.ends_before(rest.number) {
            self.second.put(rest);
        }
    }

    /// An owner of attributes that rules made: where those that were made last are equal, of these.
    fn share(&self, alloc: Global, rest: Attrs) -> Result<Arc<Attrs>, AllocError>
        ensures { IfOk result (λ attrs. arc_value attrs ≡ rest) }
    {
        if let Some(last) = &self.last {
            if *last.rest == rest {
                return last.rest.clone();
            }
        }
        Ok(Arc::new(alloc, rest)?)
    }

    /// What is left of these attributes, made anew.
    fn make(
        &mut self,
        alloc: Global,
        number: u32,
        whole: &Arc<Attrs>,
    ) -> Result<Arc<Attrs>, AllocError>
        ensures strip { self.new.strip ≡ self.old.strip }
        ensures rest { IfOk result (λ rest. arc_value rest ≡ stripped_of (taken_by_owner self.old.strip) (arc_value whole.now)) }
    {
        let rest = self.share(alloc, stripped(alloc, whole, &self.strip.lent())?)?;
        let made = Rest {
            number,
            whole: whole.clone()?,
            rest: rest.clone()?,
        };
        self.keep(made.copy()?);
        self.last = Some(made);
        Ok(rest)
    }

    /// What is left of a route for the prefix of a number.
    fn rest_of(
        &mut self,
        alloc: Global,
        number: u32,
        whole: &Arc<Attrs>,
    ) -> Result<Arc<Attrs>, AllocError>
        ensures { IfOk result (λ rest. arc_value rest ≡ stripped_of (taken_by_owner self.old.strip) (arc_value whole.now)) }
    {
        self.seek(number);
        if let Some(rest) = self.find(whole) {
            return rest.clone();
        }
        self.make(alloc, number, whole)
    }
}

impl Stripped {
    pub(crate) fn new(alloc: Global) -> Stripped {
        Stripped {
            alloc,
            by: Vec::new(alloc),
        }
    }

    /// Another outlet goes over what was touched.
    pub(crate) fn begin(&mut self) {
        for rests in self.by.iter_mut() {
            rests.begin();
        }
    }

    /// What a strip leaves of a route for the prefix of a number, which is greater than those that an outlet asked for
    /// before.
    pub(crate) fn rest_of(
        &mut self,
        number: u32,
        whole: &Arc<Attrs>,
        strip: &Strip<'_>,
    ) -> Result<Arc<Attrs>, AllocError>
        ensures { IfOk result (λ rest. arc_value rest ≡ stripped_of (taken_by strip.now) (arc_value whole.now)) }
    {
        for place in 0..self.by.len() {
            if self.by[place].strip.lent().is_same(strip) {
                return self.by[place].rest_of(self.alloc, number, whole);
            }
        }
        let mut rests = Rests::new(self.alloc, strip)?;
        let rest = rests.rest_of(self.alloc, number, whole)?;
        self.by.truncate(STRIPS - 1);
        self.by.push(rests)?;
        Ok(rest)
    }
}
