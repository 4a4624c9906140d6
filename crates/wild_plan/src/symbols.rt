//! The symbols that a plan lists: those of the table, and those of the script.

ghost use Rattle.std.specs.Prelude.{◌≡◌, ◌≢◌, [], ◌++◌, true, OnOk, IfOk};
ghost use Rattle.std.specs.Option.{option_map, option_to_list};
ghost use Rattle.wild_eval.specs.Scope.{shown_definition};
ghost use Rattle.wild_eval.specs.Addresses.{known_of};
ghost use Rattle.wild_plan_spec.specs.Symbols as spec;
ghost use Rattle.wild_fates.specs.Shown.{shown_place, shown_places, shown_task};
ghost use Rattle.wild_eval.specs.Evaluated.{IsMemoOf};
ghost use Rattle.wild_plan.specs.End.{AreDefined, IsDefined, IsPlaceDefined, IsTaskDefined, known, scope};
ghost use Rattle.wild_plan.specs.Sums.{wrapped_symbol, wrapped_symbols};
ghost use Rattle.wild_value_spec.specs.Answer.{Returns};
ghost use Rattle.wild_value_spec.specs.Scope.{definition_of};

use crate::definitions::symbol_chunk;
use crate::ends::End;
use crate::points::holder;
use sqlite_items::Items;
use std::alloc::{AllocError, Global};
use wild_base::{Fault, Name, NoMemory};
use wild_eval::{Addresses, Definition, Memo};
use wild_fates::{Place, Task};
use wild_plan_spec::{Chunk, Kept, PlacedSymbol, SymbolRow, Where};
use wild_script_tree::{Expression, ProvideSymbolDefinition};

// ---- of the table

// A symbol of the table, in the chunk of its row. Where all places are laid out, the sum does not wrap.
fn push_symbol(
    alloc: Global,
    symbols: &mut Items<PlacedSymbol>,
    addresses: &Addresses,
    symbol: &SymbolRow,
    chunk: Option<Chunk>,
) -> Result<(), NoMemory>
    ensures { OnOk result (symbols.new ≡ symbols.old ++ wrapped_symbol (known_of addresses.now) symbol.now chunk) }
{
    let Some(chunk) = chunk else {
        return Ok(());
    };
    let name = symbol.name.copy(alloc)?;
    symbols.push(PlacedSymbol {
        name,
        address: addresses.address(symbol.row).wrapping_add(symbol.offset),
        section: Some(chunk.section),
        hidden: false,
    })?;
    Ok(())
}

/// The symbols of the table, in table order, by the fates of the rows.
pub fn table_symbols(
    alloc: Global,
    addresses: &Addresses,
    fates: &[Option<Kept>],
    symbols: &[SymbolRow],
) -> Result<Items<PlacedSymbol>, NoMemory>
    ensures { IfOk result (λ placed. placed ≡ wrapped_symbols (known_of addresses.now) fates.now symbols.now) }
{
    let mut placed = Items::new(alloc);
    for symbol in symbols {
        push_symbol(
            alloc,
            &mut placed,
            addresses,
            symbol,
            symbol_chunk(fates, symbol),
        )?;
    }
    Ok(placed)
}

// ---- of the script

// Whether the definition is the one at this place.
fn is_at(place: usize, definition: Option<Definition<'_>>) -> bool
    ensures { result ≡ spec.is_at place (option_map shown_definition definition.entry) }
{
    match definition {
        Some(Definition::OfScript { point, .. }) => point.place == place,
        _ => false,
    }
}

fn push_listed(
    found: &mut Items<PlacedSymbol>,
    symbol: Option<PlacedSymbol>,
) -> Result<(), AllocError>
    ensures { OnOk result (found.new ≡ found.old ++ option_to_list symbol) }
{
    match symbol {
        Some(symbol) => found.push(symbol),
        None => Ok(()),
    }
}

impl End<'_> {
    // An expression has a value, and nothing is listed.
    #[tactic(auto, unfolding(wild_plan_spec::specs::Symbols::unlisted))]
    fn unlisted(
        &self,
        memo: &mut Memo,
        place: usize,
        stand: Where,
        expression: &Expression,
    ) -> Result<Option<PlacedSymbol>, Fault>
        requires memo { IsMemoOf (scope self.now) (known self.now) memo.old }
        ensures memo { IsMemoOf (scope self.now) (known self.now) memo.new }
        ensures symbol { Returns result (spec.unlisted (scope self.now) (known self.now) place stand expression.now) }
    {
        self.full(memo, place, stand, expression)?;
        Ok(None)
    }

    // A symbol with its value, which must not ask for itself. Its expression is the definition that counts.
    #[tactic(auto, unfolding(wild_plan_spec::specs::Symbols::listed_symbol))]
    fn listed_symbol(
        &self,
        memo: &mut Memo,
        place: usize,
        stand: Where,
        name: &Name,
        expression: &Expression,
        hidden: bool,
    ) -> Result<Option<PlacedSymbol>, Fault>
        requires memo { IsMemoOf (scope self.now) (known self.now) memo.old }
        requires defined { IsDefined (scope self.now) place stand name.now expression.now }
        ensures memo { IsMemoOf (scope self.now) (known self.now) memo.new }
        ensures symbol { Returns result (spec.listed_symbol (scope self.now) (known self.now) place stand name.now expression.now hidden) }
    {
        let address = self.symbol_number(memo, place, name)?;
        Ok(Some(PlacedSymbol {
            name: name.copy(self.ground.alloc)?,
            address,
            section: holder(stand),
            hidden,
        }))
    }

    // An empty name is not listed.
    #[tactic(auto, using(crate::proofs::Named::assigned_by_name))]
    fn assignment_symbol(
        &self,
        memo: &mut Memo,
        place: usize,
        stand: Where,
        name: &Name,
        expression: &Expression,
    ) -> Result<Option<PlacedSymbol>, Fault>
        requires memo { IsMemoOf (scope self.now) (known self.now) memo.old }
        requires defined { name.now ≢ [] → IsDefined (scope self.now) place stand name.now expression.now }
        ensures memo { IsMemoOf (scope self.now) (known self.now) memo.new }
        ensures symbol { Returns result (spec.assignment_symbol (scope self.now) (known self.now) place stand name.now expression.now) }
    {
        if name.is_empty() {
            self.unlisted(memo, place, stand, expression)
        } else {
            self.listed_symbol(memo, place, stand, name, expression, false)
        }
    }

    // Only where it is the definition that counts.
    fn provide_symbol(
        &self,
        memo: &mut Memo,
        place: usize,
        stand: Where,
        definition: &ProvideSymbolDefinition,
    ) -> Result<Option<PlacedSymbol>, Fault>
        requires memo { IsMemoOf (scope self.now) (known self.now) memo.old }
        requires defined { spec.is_at place (definition_of (scope self.now) definition.now.name) ≡ true → IsDefined (scope self.now) place stand definition.now.name definition.now.value }
        ensures memo { IsMemoOf (scope self.now) (known self.now) memo.new }
        ensures symbol { Returns result (spec.provide_symbol (scope self.now) (known self.now) place stand definition.now) }
    {
        if is_at(place, self.ground.scope.definition(&definition.name)) {
            self.listed_symbol(
                memo,
                place,
                stand,
                &definition.name,
                &definition.value,
                definition.hidden,
            )
        } else {
            Ok(None)
        }
    }

    #[tactic(auto, unfolding(wild_plan_spec::specs::Symbols::task_symbol))]
    fn task_symbol(
        &self,
        memo: &mut Memo,
        place: usize,
        stand: Where,
        task: Task<'_>,
    ) -> Result<Option<PlacedSymbol>, Fault>
        requires memo { IsMemoOf (scope self.now) (known self.now) memo.old }
        requires defined { IsTaskDefined (scope self.now) place stand (shown_task task) }
        ensures memo { IsMemoOf (scope self.now) (known self.now) memo.new }
        ensures symbol { Returns result (spec.task_symbol (scope self.now) (known self.now) place stand (shown_task task.entry)) }
    {
        match task {
            Task::Assign(name, expression) => {
                self.assignment_symbol(memo, place, stand, name, expression)
            }
            Task::Provide(definition) => self.provide_symbol(memo, place, stand, definition),
            Task::Locate(expression) => self.unlisted(memo, place, stand, expression),
            Task::Check(_) => Ok(None),
        }
    }

    #[tactic(auto, unfolding(wild_plan_spec::specs::Symbols::place_symbol))]
    fn place_symbol(
        &self,
        memo: &mut Memo,
        number: usize,
        place: &Place<'_>,
    ) -> Result<Option<PlacedSymbol>, Fault>
        requires memo { IsMemoOf (scope self.now) (known self.now) memo.old }
        requires defined { IsPlaceDefined (scope self.now) number (shown_place place.now) }
        ensures memo { IsMemoOf (scope self.now) (known self.now) memo.new }
        ensures symbol { Returns result (spec.place_symbol (scope self.now) (known self.now) number (shown_place place.now)) }
    {
        match *place {
            Place::Wait(stand, task) => self.task_symbol(memo, number, stand, task),
            _ => Ok(None),
        }
    }

    /// The symbols of the places, in text order.
    pub fn symbols(
        &self,
        memo: &mut Memo,
        places: &[Place<'_>],
    ) -> Result<Items<PlacedSymbol>, Fault>
        requires memo { IsMemoOf (scope self.now) (known self.now) memo.old }
        requires defined { AreDefined (scope self.now) (shown_places places.now) }
        ensures memo { IsMemoOf (scope self.now) (known self.now) memo.new }
        ensures symbols { Returns result (spec.symbols (scope self.now) (known self.now) 0 (shown_places places.now)) }
    {
        let mut found = Items::new(self.ground.alloc);
        for (number, place) in places.iter().enumerate() {
            let symbol = self.place_symbol(memo, number, place)?;
            push_listed(&mut found, symbol)?;
        }
        Ok(found)
    }
}
