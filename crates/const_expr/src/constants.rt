//! Constants by their names (Cyphal Specification, section 3.5).
ghost use Rattle.std.specs.Prelude.{◌≡◌, ◌++◌, ◌∷◌, [], Ok, Err, IfSome, MatchOption, OnOk, OnErr};
ghost use Rattle.const_expr.specs.Constants.{IsConst};
ghost use Rattle.const_expr.specs.Member.{AreConstants, named_in};

use crate::scope::NamedConst;
use crate::why::Why;
use cy_bits::NoMemory;
use std::alloc::Global;
use std::collections::BTreeMap;
use std::marker::Model;

/// Constants in order, of which the first of a name is found without a look at each.
#[derive(Drop)]
pub struct Constants {
    list: Vec<NamedConst>,
    places: BTreeMap<String, usize>,
}

impl Model for Constants {
    ghost use Rattle.std.specs.Prelude.{List};
    ghost use Rattle.std.specs.BTreeMap.{get_by_text};
    ghost use Rattle.const_expr.specs.Names.{AreNamePlaces};
    ghost use Rattle.const_expr.specs.declared.scope.NamedConst.{NamedConst};
    ghost use Rattle.std.specs.Coded.{codes};
    ghost use Rattle.const_expr.specs.contracts.constant.Const as constant;

    ghost Value = { List NamedConst };

    ghost coded = { Prim.hlevel (codes, constant.the_row.coded) };

    ghost view = { λ c. c.list.items };

    ghost invariant = { λ c. AreNamePlaces c.list.items (get_by_text c.places) };
}

impl Constants {
    /// No constants. Takes no memory.
    pub fn new(alloc: Global) -> Constants
        ensures { result ≡ [] }
    {
        Constants {
            list: Vec::new(alloc),
            places: BTreeMap::new(alloc),
        }
    }

    /// The first constant of a name.
    pub fn find(&self, name: &str) -> Option<&NamedConst>
        ensures found { MatchOption result
            (named_in self.now name.now ≡ Err (Why.Unknown name.now))
            (λ constant. named_in self.now name.now ≡ Ok constant.now.value) }
        ensures kept { AreConstants self.now → IfSome result (λ constant.
            IsConst constant.now.value) }
    {
        match self.places.get(name) {
            Some(place) => self.list.get(*place),
            None => None,
        }
    }

    /// Adds a constant behind all others. Where memory is wanting the constants stay as they were.
    pub fn push(&mut self, alloc: Global, constant: NamedConst) -> Result<(), NoMemory>
        ensures added { OnOk result (self.new ≡ self.old ++ constant ∷ []) }
        ensures kept { OnErr result (self.new ≡ self.old) }
    {
        let place = self.list.len();
        let name = String::from_str(alloc, constant.name.as_str())?;
        let is_first = !self.places.contains_key(name.as_str());
        self.list.push(constant)?;
        if is_first && self.places.insert(name, place).is_err() {
            self.list.pop();
            return Err(NoMemory);
        }
        Ok(())
    }
}
