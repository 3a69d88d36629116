//! The sets of attributes that routes share: of each its number, its attributes, and how many routes have
//! it.
//!
//! Equal attributes are one set, whoever sent them: they are found by their hash. A set gets its number before
//! its first route, and gives it up with its last one.
#![tactic(auto, unfolding(crate::specs::Sets::count_of))]

ghost use Rattle.std.specs.Prelude.{◌≡◌, ◌<◌, ◌+◌, ◌==◌, true, not, ℕ, List, Some, None, length, count_by, option_map, IfOk, OnOk, OnErr};
ghost use Rattle.std.specs.Arc.{arc_value};
ghost use Rattle.rs_attrs.specs.Meaning.{Attribute};
ghost use Rattle.rs_adjin.specs.Held.{one_if};
ghost use Rattle.rs_adjin.specs.SetNumbering.{IsInverse, number_by};

use crate::room::make_room;
use crate::set_numbers::SetNumbers;
use rs_attrs::Attrs;
use std::alloc::{AllocError, Global};
use std::sync::Arc;

/// A set of attributes: its number, and the copy of them that is kept.
#[derive(Drop)]
pub struct Shared {
    pub set: u32,
    pub attrs: Arc<Attrs>,
}

/// The attributes of a number; none where no set has it.
#[derive(Drop)]
pub(crate) struct AttrsRow {
    pub(crate) attrs: Option<Arc<Attrs>>,
}

/// Sets of attributes by number, and how many routes have each.
#[derive(Drop)]
pub(crate) struct Sets {
    numbers: SetNumbers,
    rows: Vec<AttrsRow>,
    uses: Vec<u32>,
    /// Numbers that no set has.
    free: Vec<u32>,
    /// How many numbers have routes.
    held: usize,
    ghost inverse: { IsInverse (number_by numbers) rows.items },
    ghost counted: { count_by (λ n. not (n == 0)) uses.items ≡ held },
}

impl Sets {
    ghost use Rattle.rs_adjin.specs.Sets.{count_of, set_in, attrs_of, HasRoom, SameCounts, KeepsSets, SameSets, SameSetsBut, GivesUpSet};

    /// No route has any set.
    pub(crate) fn new(alloc: Global) -> Sets
        ensures { (s : ℕ) → count_of result s ≡ 0 }
    {
        Sets {
            numbers: SetNumbers::new(alloc),
            rows: Vec::new(alloc),
            uses: Vec::new(alloc),
            free: Vec::new(alloc),
            held: 0,
        }
    }

    /// How many sets routes have.
    pub(crate) fn held(&self) -> usize
        ensures { result ≡ self.now.held }
    {
        self.held
    }

    /// The number of these attributes. It is an `Err` only where no more can share them.
    pub(crate) fn number(&self, attrs: &Arc<Attrs>) -> Result<Option<u32>, AllocError>
        ensures { IfOk result (λ set. set ≡ set_in self.now (arc_value attrs.now)) }
    {
        self.numbers.get(attrs)
    }

    /// The attributes of a number.
    fn attrs(&self, set: u32) -> Option<&Arc<Attrs>>
        ensures { option_map (λ attrs. arc_value attrs.now) result ≡ attrs_of self.now set }
    {
        self.rows.get(set as usize)?.attrs.as_ref()
    }

    /// Whether these attributes are those of a number.
    pub(crate) fn is_of(&self, set: u32, attrs: &Arc<Attrs>) -> bool
        ensures { result ≡ true → set_in self.now (arc_value attrs.now) ≡ Some set }
    {
        match self.attrs(set) {
            Some(kept) => kept == attrs,
            None => false,
        }
    }

    /// The copy of these attributes that is kept.
    fn copy_of(&self, set: u32, attrs: &Arc<Attrs>) -> Result<Arc<Attrs>, AllocError>
        requires { set_in self.now (arc_value attrs.now) ≡ Some set }
        ensures { IfOk result (λ copy. arc_value copy ≡ arc_value attrs.now) }
    {
        match self.attrs(set) {
            Some(kept) => kept.clone(),
            None => attrs.clone(),
        }
    }

    /// A number that no attributes have, with room for giving it back.
    fn unused(&mut self) -> Result<u32, AllocError>
        ensures sets { SameSets self.old self.new }
        ensures counts { SameCounts self.old self.new }
        ensures unused { IfOk result (λ n. attrs_of self.new n ≡ None) }
        ensures within { IfOk result (λ n. n < length self.new.rows.items) }
    {
        if let Some(number) = self.free.pop()
            && let Some(row) = self.rows.get(number as usize)
            && row.attrs.is_none()
        {
            return Ok(number);
        }
        let Ok(number) = u32::try_from(self.rows.len()) else {
            return Err(AllocError);
        };
        let wanted = number as usize + 1;
        make_room(&mut self.free, wanted)?;
        make_room(&mut self.rows, wanted)?;
        self.rows.push(AttrsRow { attrs: None })?;
        Ok(number)
    }

    /// The set of these attributes, where they have a number.
    fn known(&self, attrs: &Arc<Attrs>) -> Result<Shared, AllocError>
        ensures set { IfOk result (λ shared. set_in self.now (arc_value attrs.now) ≡ Some shared.set) }
        ensures attrs { IfOk result (λ shared. arc_value shared.attrs ≡ arc_value attrs.now) }
    {
        let Some(set) = self.number(attrs)? else {
            return Err(AllocError);
        };
        let attrs = self.copy_of(set, attrs)?;
        Ok(Shared { set, attrs })
    }

    /// The set of these attributes, which gets a number if it has none: one search finds it, or the place where it belongs.
    pub(crate) fn share(&mut self, attrs: &Arc<Attrs>) -> Result<Shared, AllocError>
        ensures set { IfOk result (λ shared. set_in self.new (arc_value attrs.now) ≡ Some shared.set) }
        ensures attrs { IfOk result (λ shared. arc_value shared.attrs ≡ arc_value attrs.now) }
        ensures kept { KeepsSets self.old self.new }
        ensures others { SameSetsBut (arc_value attrs.now) self.old self.new }
        ensures err { OnErr result (SameSets self.old self.new) }
        ensures counts { SameCounts self.old self.new }
    {
        let key = attrs.clone()?;
        let kept = attrs.clone()?;
        let copy = attrs.clone()?;
        let Ok(unused) = self.unused() else {
            return self.known(attrs);
        };
        match self.numbers.find_or_give(key, unused) {
            Ok(None) => {
                self.rows[unused as usize].attrs = Some(kept);
                Ok(Shared {
                    set: unused,
                    attrs: copy,
                })
            }
            Ok(Some(set)) => {
                let _ = self.free.push(unused);
                let attrs = self.copy_of(set, attrs)?;
                Ok(Shared { set, attrs })
            }
            Err(refused) => {
                let _ = self.free.push(unused);
                Err(refused)
            }
        }
    }

    /// No attributes have this number from now on.
    fn give_up(&mut self, set: u32)
        ensures gone { attrs_of self.new set ≡ None }
        ensures others { GivesUpSet self.old self.new set }
        ensures counts { SameCounts self.old self.new }
    {
        let place = set as usize;
        if place >= self.rows.len() {
            return;
        }
        let Some(attrs) = self.rows[place].attrs.take() else {
            return;
        };
        self.numbers.remove(attrs);
        let _ = self.free.push(set);
    }

    /// Gives up the number of a set that no route has.
    pub(crate) fn forget(&mut self, set: u32)
        ensures gone { count_of self.old set ≡ 0 → attrs_of self.new set ≡ None }
        ensures used { 0 < count_of self.old set → SameSets self.old self.new }
        ensures others { GivesUpSet self.old self.new set }
        ensures counts { SameCounts self.old self.new }
    {
        match self.uses.get(set as usize) {
            Some(uses) if *uses > 0 => {}
            _ => self.give_up(set),
        }
    }

    /// There is a count for a set.
    fn grow(&mut self, set: u32) -> Result<(), AllocError>
        ensures same { SameCounts self.old self.new }
        ensures there { OnOk result (set < length self.new.uses.items) }
    {
        let wanted = set as usize + 1;
        if wanted <= self.uses.len() {
            return Ok(());
        }
        make_room(&mut self.uses, wanted)?;
        self.uses.resize(wanted, 0)
    }

    /// Makes room for one route more with a set.
    pub(crate) fn make_room_for(&mut self, set: u32) -> Result<(), AllocError>
        ensures same { (s : ℕ) → count_of self.new s ≡ count_of self.old s }
        ensures room { OnOk result (HasRoom self.new set) }
    {
        self.grow(set)?;
        if self.uses[set as usize] == u32::MAX {
            return Err(AllocError);
        }
        Ok(())
    }

    /// One route more has a set.
    pub(crate) fn add(&mut self, set: u32)
        requires { HasRoom self.old set }
        ensures { (s : ℕ) → count_of self.new s ≡ count_of self.old s + one_if (set == s) }
    {
        let uses = self.uses[set as usize];
        if uses == 0 {
            self.held += 1;
        }
        self.uses[set as usize] = uses + 1;
    }

    /// One route less has a set. With the last one its number is given up.
    pub(crate) fn remove(&mut self, set: u32)
        requires { 0 < count_of self.old set }
        ensures { (s : ℕ) → count_of self.new s + one_if (set == s) ≡ count_of self.old s }
    {
        let uses = self.uses[set as usize] - 1;
        self.uses[set as usize] = uses;
        if uses == 0 {
            self.held -= 1;
            self.give_up(set);
        }
    }
}
