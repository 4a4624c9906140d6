//! The walk over the places of a script, which finds each address.

ghost use Rattle.std.specs.Prelude.{◌≡◌, ◌⊎◌, ℕ, ◌+◌, nat_lt, [], length, map, IfOk, IfErr, OnOk};
ghost use Rattle.wild_names.specs.declared.fault.Fault.TheVariants as fault;
ghost use Rattle.wild_eval.specs.Addresses.{known_of};
ghost use Rattle.wild_value_spec.specs.Answer.{Returns};
ghost use Rattle.wild_value_spec.specs.Value.{full_value};
ghost use Rattle.wild_plan_spec.specs.Chunks.{largest};
ghost use Rattle.wild_plan_spec.specs.Names.{or_empty};
ghost use Rattle.wild_plan_spec.specs.Steps.{first_state, up, counter_in, with_counter, leaves, leaves_region, section_ended_inside, is_floating, dot_before, dot_noted, start_found, section_started, load_found, section_loaded, section_begun, section_opened, row_placed, rows_placed, chunk_placed, chunk_collected, cursor_moved, cursor_set, section_ended, overlapped, section_ended_alone, section_ended_after, section_closed, counter_set, effect, step};
ghost use Rattle.wild_plan_spec.specs.Walk.{Stands, Refuses};
ghost use Rattle.wild_plan.specs.Ground.{shown_ground};
ghost use Rattle.wild_plan.specs.Moves.{Moves, state_of};
ghost use Rattle.wild_plan.specs.Taken.{AreTaken, AreTakenBefore, ends_of};
ghost use Rattle.wild_walk_laws.specs.Nesting.{Free, Nests};
ghost use Rattle.wild_fates.specs.Shown.{shown_place, shown_places};

use crate::ground::Ground;
use crate::points::{load_point, location_point, start_point};
use crate::taken::Taken;
use sqlite_items::Items;
use std::alloc::{AllocError, Global};
use wild_base::{Alignment, Fault, Name, NoMemory, alignment};
use wild_eval::{Addresses, Evaluator, sum};
use wild_fates::Place;
use wild_plan_spec::{Chunk, ChunkRow, PlacedLocation, Where};
use wild_script_tree::Expression;
use wild_value_spec::{Point, Region};

/// What stands before a place.
#[derive(Drop)]
pub struct Walk {
    /// Where the next section goes that is in no region.
    counter: u64,
    /// Where the next section of each region goes, by the numbers of the regions.
    regions: Vec<u64>,
    /// Where the next row of the open section goes.
    cursor: u64,
    pub addresses: Addresses,
    /// What the statements so far made of the location counter.
    pub locations: Items<PlacedLocation>,
}

#[tactic(auto, unfolding(wild_plan_spec::specs::Steps::up))]
fn up(number: u64, alignment: Alignment) -> Result<u64, Fault>
    ensures { Returns result (up number alignment) }
{
    match alignment.try_align_up(number) {
        Some(next) => Ok(next),
        None => Err(Fault::AlignOverflow {
            value: number,
            align: alignment.value(),
        }),
    }
}

/// The largest alignment of the rows.
fn largest(rows: &[ChunkRow]) -> Alignment
    ensures { result ≡ largest rows.now }
{
    let mut most = alignment::MIN;
    for row in rows {
        most = most.max(row.alignment.0);
    }
    most
}

/// The fault of two sections that share an address.
fn overlap(ground: &Ground<'_>, first: usize, second: usize) -> Result<Fault, NoMemory>
    ensures { IfOk result (λ f. f ≡ fault.Overlap ((shown_ground ground.now).facts first).name ((shown_ground ground.now).facts second).name) }
{
    Ok(Fault::Overlap {
        first: Name::new(ground.alloc, ground.section_name(first))?,
        second: Name::new(ground.alloc, ground.section_name(second))?,
    })
}

/// The fault of a section that is not in its region.
fn region_full(ground: &Ground<'_>, section: usize) -> Result<Fault, NoMemory>
    ensures { IfOk result (λ f. f ≡ fault.RegionFull (or_empty ((shown_ground ground.now).facts section).region) ((shown_ground ground.now).facts section).name) }
{
    Ok(Fault::RegionFull {
        region: Name::new(ground.alloc, ground.region_name(section))?,
        section: Name::new(ground.alloc, ground.section_name(section))?,
    })
}

/// Where the regions begin.
fn origins(alloc: Global, regions: &[Region]) -> Result<Vec<u64>, AllocError>
    ensures { IfOk result (λ origins. origins.items ≡ map (λ r. r.origin) regions.now) }
{
    let mut origins = Vec::new(alloc);
    for region in regions {
        origins.push(region.origin)?;
    }
    Ok(origins)
}

/// The counter of this region, if it is one, becomes this number.
fn set_region_counter(counters: &mut Vec<u64>, region: Option<usize>, number: u64)
    ensures { counters.new.items ≡ with_counter region number counters.old.items }
{
    if let Some(region) = region {
        if region < counters.len() {
            counters[region] = number;
        }
    }
}

/// Whether an end is behind a region.
fn is_behind(region: Region, end: u64) -> bool
    ensures { result ≡ nat_lt (region.origin + region.length) end }
{
    match region.origin.checked_add(region.length) {
        Some(last) => last < end,
        None => false,
    }
}

/// What goes from start up to end begins before the region, or ends behind it.
fn leaves(region: Option<Region>, start: u64, end: u64) -> bool
    ensures { result ≡ leaves region start end }
{
    match region {
        None => false,
        Some(region) => start < region.origin || is_behind(region, end),
    }
}

impl Walk {
    fn new(ground: &Ground<'_>) -> Result<Walk, AllocError>
        ensures { IfOk result (λ walk. state_of walk ≡ first_state (shown_ground ground.now)) }
    {
        let regions = origins(ground.alloc, ground.scope.regions)?;
        Ok(Walk {
            counter: 0,
            regions,
            cursor: 0,
            addresses: Addresses::new(ground.alloc),
            locations: Items::new(ground.alloc),
        })
    }

    // The number that an expression of this place stands for at a point, over what is known.
    fn full(
        &self,
        ground: &Ground<'_>,
        place: usize,
        expression: &Expression,
        point: Point,
    ) -> Result<u64, Fault>
        ensures { Returns result (full_value (shown_ground ground.now).scope place (known_of self.now.addresses) [] expression.now point) }
    {
        let evaluator = Evaluator {
            alloc: ground.alloc,
            scope: &ground.scope,
            addresses: &self.addresses,
            statement: place,
        };
        evaluator.full(&mut evaluator.memo(), expression, point)
    }

    // Where the next section of this region goes, or of none.
    fn counter_in(&self, region: Option<usize>) -> u64
        ensures { result ≡ counter_in region (state_of self.now) }
    {
        match region {
            Some(number) => match self.regions.get(number) {
                Some(counter) => *counter,
                None => 0,
            },
            None => self.counter,
        }
    }

    // ---- a section begins

    // Where its start expression says, else at 0 where it floats, and else at the next multiple of its alignment, in its
    // region.
    #[tactic(auto, unfolding(wild_plan_spec::specs::Steps::start_found))]
    fn find_start(&self, ground: &Ground<'_>, place: usize, section: usize) -> Result<u64, Fault>
        ensures { Returns result (start_found (shown_ground ground.now) place ((shown_ground ground.now).facts section) (state_of self.now)) }
    {
        match ground.start(section) {
            Some(expression) => self.full(ground, place, expression, start_point(place)),
            None if ground.is_floating(section) => Ok(0),
            None => {
                let counter = self.counter_in(ground.region_number(section));
                up(counter, ground.alignment(section))
            }
        }
    }

    // It starts there, which its load address may ask for.
    #[tactic(auto, unfolding(wild_plan_spec::specs::Steps::section_started))]
    fn start_section(&mut self, place: usize, section: usize, start: u64) -> Result<(), AllocError>
        ensures { OnOk result (state_of self.new ≡ section_started place section start (state_of self.old)) }
    {
        self.addresses.learn_start(section, start)?;
        self.addresses.learn_load_dot(place, start)
    }

    // Where its AT clause says, and else where it starts.
    #[tactic(auto, unfolding(wild_plan_spec::specs::Steps::load_found))]
    fn find_load(
        &self,
        ground: &Ground<'_>,
        place: usize,
        section: usize,
        start: u64,
    ) -> Result<u64, Fault>
        ensures { Returns result (load_found (shown_ground ground.now) place ((shown_ground ground.now).facts section) start (state_of self.now)) }
    {
        match ground.load(section) {
            Some(expression) => self.full(ground, place, expression, load_point(place)),
            None => Ok(start),
        }
    }

    #[tactic(auto, unfolding(wild_plan_spec::specs::Steps::section_loaded))]
    fn load_section(&mut self, section: usize, start: u64, load: u64) -> Result<(), AllocError>
        ensures { OnOk result (state_of self.new ≡ section_loaded section start load (state_of self.old)) }
    {
        self.addresses.learn_load(section, load)?;
        self.cursor = start;
        Ok(())
    }

    // A section, which starts there, is loaded.
    #[tactic(auto, unfolding(wild_plan_spec::specs::Steps::section_begun))]
    fn begin_section(
        &mut self,
        ground: &Ground<'_>,
        place: usize,
        section: usize,
        start: u64,
    ) -> Result<(), Fault>
        ensures { Moves result self.new (section_begun (shown_ground ground.now) place section start (state_of self.old)) }
    {
        let load = self.find_load(ground, place, section, start)?;
        self.load_section(section, start, load)?;
        Ok(())
    }

    #[tactic(auto, unfolding(wild_plan_spec::specs::Steps::section_opened))]
    fn open_section(
        &mut self,
        ground: &Ground<'_>,
        place: usize,
        section: usize,
    ) -> Result<(), Fault>
        ensures { Moves result self.new (section_opened (shown_ground ground.now) place section (state_of self.old)) }
    {
        let start = self.find_start(ground, place, section)?;
        self.start_section(place, section, start)?;
        self.begin_section(ground, place, section, start)
    }

    // ---- in a section

    #[tactic(auto, unfolding(wild_plan_spec::specs::Steps::row_placed))]
    fn place_row(&mut self, row: &ChunkRow) -> Result<(), Fault>
        ensures { Moves result self.new (row_placed row.now (state_of self.old)) }
    {
        let size = up(row.size, row.alignment.0)?;
        let next = sum(self.cursor, size)?;
        self.addresses.learn_address(row.row, self.cursor)?;
        self.cursor = next;
        Ok(())
    }

    fn place_rows(&mut self, rows: &[ChunkRow]) -> Result<(), Fault>
        ensures { Moves result self.new (rows_placed rows.now (state_of self.old)) }
    {
        for row in rows {
            self.place_row(row)?;
        }
        Ok(())
    }

    #[tactic(auto, unfolding(wild_plan_spec::specs::Steps::chunk_placed))]
    fn place_chunk(&mut self, rows: &[ChunkRow]) -> Result<(), Fault>
        ensures { Moves result self.new (chunk_placed rows.now (state_of self.old)) }
    {
        self.cursor = up(self.cursor, largest(rows))?;
        self.place_rows(rows)
    }

    // The rows of the chunk that a matcher collects for, if it has one.
    #[tactic(auto, unfolding(wild_plan_spec::specs::Steps::chunk_collected))]
    fn collect_chunk(&mut self, ground: &Ground<'_>, chunk: Option<Chunk>) -> Result<(), Fault>
        ensures { Moves result self.new (chunk_collected (shown_ground ground.now) chunk (state_of self.old)) }
    {
        match chunk {
            None => Ok(()),
            Some(chunk) => self.place_chunk(ground.chunks.rows(chunk)),
        }
    }

    // The cursor becomes the address at this place; it must not go back.
    fn move_cursor(&mut self, place: usize, address: u64) -> Result<(), Fault>
        ensures { Moves result self.new (cursor_moved place address (state_of self.old)) }
    {
        if address < self.cursor {
            return Err(Fault::MovesBack {
                statement: place,
                from: self.cursor,
                to: address,
            });
        }
        self.locations.push(PlacedLocation {
            statement: place,
            address,
        })?;
        self.cursor = address;
        Ok(())
    }

    #[tactic(auto, unfolding(wild_plan_spec::specs::Steps::cursor_set))]
    fn set_cursor(
        &mut self,
        ground: &Ground<'_>,
        place: usize,
        section: usize,
        expression: &Expression,
    ) -> Result<(), Fault>
        ensures { Moves result self.new (cursor_set (shown_ground ground.now) place section expression.now (state_of self.old)) }
    {
        let point = location_point(place, Some(section));
        let address = self.full(ground, place, expression, point)?;
        self.move_cursor(place, address)
    }

    // ---- a section ends

    // It ends at the cursor. Where it does not float, what comes next goes on from there, in its region too.
    #[tactic(auto, unfolding(wild_plan_spec::specs::Steps::section_ended))]
    fn end_section(&mut self, ground: &Ground<'_>, section: usize) -> Result<(), Fault>
        ensures { Moves result self.new (section_ended (shown_ground ground.now) section (state_of self.old)) }
    {
        self.addresses.learn_end(section, self.cursor)?;
        if !ground.is_floating(section) {
            self.counter = self.cursor;
            set_region_counter(
                &mut self.regions,
                ground.region_number(section),
                self.cursor,
            );
        }
        Ok(())
    }

    // The earlier section that it must not overlap; a floating one may overlap all.
    #[tactic(auto, unfolding(wild_plan_spec::specs::Steps::overlapped))]
    fn overlapped(&self, ground: &Ground<'_>, taken: &Taken, section: usize) -> Option<usize>
        requires { AreTaken (is_floating (shown_ground ground.now)) (known_of self.now.addresses) section (ends_of taken.now) }
        ensures { result ≡ overlapped (shown_ground ground.now) section (state_of self.now) }
    {
        if ground.is_floating(section) {
            return None;
        }
        let start = self.addresses.start(section);
        taken.lowest_sharing(&self.addresses, start, self.cursor)
    }

    #[tactic(auto, unfolding(wild_plan_spec::specs::Steps::section_ended_alone))]
    fn end_section_alone(
        &mut self,
        ground: &Ground<'_>,
        taken: &Taken,
        section: usize,
    ) -> Result<(), Fault>
        requires { AreTaken (is_floating (shown_ground ground.now)) (known_of self.old.addresses) section (ends_of taken.now) }
        ensures { Moves result self.new (section_ended_alone (shown_ground ground.now) section (state_of self.old)) }
    {
        match self.overlapped(ground, taken, section) {
            None => self.end_section(ground, section),
            Some(other) => Err(overlap(ground, other, section)?),
        }
    }

    // It leaves its region, unless it floats.
    #[tactic(auto, unfolding(wild_plan_spec::specs::Steps::leaves_region))]
    fn leaves_region(&self, ground: &Ground<'_>, section: usize) -> bool
        ensures { result ≡ leaves_region (shown_ground ground.now) section (state_of self.now) }
    {
        let start = self.addresses.start(section);
        !ground.is_floating(section) && leaves(ground.region(section), start, self.cursor)
    }

    // It ends, unless it leaves its region, or shares an address with an earlier one.
    #[tactic(auto, unfolding(wild_plan_spec::specs::Steps::section_ended_inside))]
    fn end_section_inside(
        &mut self,
        ground: &Ground<'_>,
        taken: &Taken,
        section: usize,
    ) -> Result<(), Fault>
        requires { AreTaken (is_floating (shown_ground ground.now)) (known_of self.old.addresses) section (ends_of taken.now) }
        ensures { Moves result self.new (section_ended_inside (shown_ground ground.now) section (state_of self.old)) }
    {
        if self.leaves_region(ground, section) {
            return Err(region_full(ground, section)?);
        }
        self.end_section_alone(ground, taken, section)
    }

    // The rows of the rest are placed, and the section ends.
    #[tactic(auto, unfolding(wild_plan_spec::specs::Steps::section_ended_after))]
    fn end_section_after(
        &mut self,
        ground: &Ground<'_>,
        taken: &Taken,
        rest: &[ChunkRow],
        section: usize,
    ) -> Result<(), Fault>
        requires { AreTaken (is_floating (shown_ground ground.now)) (known_of self.old.addresses) section (ends_of taken.now) }
        ensures { Moves result self.new (section_ended_after (shown_ground ground.now) rest.now section (state_of self.old)) }
    {
        self.place_chunk(rest)?;
        self.end_section_inside(ground, taken, section)
    }

    #[tactic(auto, unfolding(wild_plan_spec::specs::Steps::section_closed))]
    fn close_section(
        &mut self,
        ground: &Ground<'_>,
        taken: &Taken,
        section: usize,
        rest: Option<Chunk>,
    ) -> Result<(), Fault>
        requires { AreTaken (is_floating (shown_ground ground.now)) (known_of self.old.addresses) section (ends_of taken.now) }
        ensures { Moves result self.new (section_closed (shown_ground ground.now) section rest (state_of self.old)) }
    {
        match rest {
            None => self.end_section_inside(ground, taken, section),
            Some(chunk) => {
                self.end_section_after(ground, taken, ground.chunks.rows(chunk), section)
            }
        }
    }

    // ---- places

    #[tactic(auto, unfolding(wild_plan_spec::specs::Steps::counter_set))]
    fn set_counter(
        &mut self,
        ground: &Ground<'_>,
        place: usize,
        expression: &Expression,
    ) -> Result<(), Fault>
        ensures { Moves result self.new (counter_set (shown_ground ground.now) place expression.now (state_of self.old)) }
    {
        let point = location_point(place, None);
        let address = self.full(ground, place, expression, point)?;
        self.locations.push(PlacedLocation {
            statement: place,
            address,
        })?;
        self.counter = address;
        Ok(())
    }

    // `.` of a place: in the contents of a section its cursor, else the location counter.
    fn dot_before(&self, place: &Place<'_>) -> u64
        ensures { result ≡ dot_before (shown_place place.now) (state_of self.now) }
    {
        match *place {
            Place::SetLocation(Some(_), _)
            | Place::Wait(Where::Inside(_), _)
            | Place::Collect(Some(_), _)
            | Place::Rows(_)
            | Place::Close(_, _) => self.cursor,
            Place::SetLocation(None, _)
            | Place::Wait(Where::Outermost(_) | Where::Between, _)
            | Place::Open(_, _)
            | Place::Collect(None, _)
            | Place::Discard(_)
            | Place::Idle
            | Place::Memory(_)
            | Place::Headers(_)
            | Place::Format(_) => self.counter,
        }
    }

    // It becomes known before the place has its effect.
    #[tactic(auto, unfolding(wild_plan_spec::specs::Steps::dot_noted))]
    fn note_dot(&mut self, number: usize, place: &Place<'_>) -> Result<(), AllocError>
        ensures { OnOk result (state_of self.new ≡ dot_noted number (shown_place place.now) (state_of self.old)) }
    {
        let dot = self.dot_before(place);
        self.addresses.learn_dot(number, dot)
    }

    #[tactic(auto, unfolding(wild_plan_spec::specs::Steps::effect))]
    fn have_effect(
        &mut self,
        ground: &Ground<'_>,
        taken: &Taken,
        number: usize,
        place: &Place<'_>,
    ) -> Result<(), Fault>
        requires { AreTakenBefore (is_floating (shown_ground ground.now)) (known_of self.old.addresses) (shown_place place.now) (ends_of taken.now) }
        ensures { Moves result self.new (effect (shown_ground ground.now) number (shown_place place.now) (state_of self.old)) }
    {
        match *place {
            Place::SetLocation(None, expression) => self.set_counter(ground, number, expression),
            Place::SetLocation(Some(section), expression) => {
                self.set_cursor(ground, number, section, expression)
            }
            Place::Open(section, _) => self.open_section(ground, number, section),
            Place::Collect(chunk, _) => self.collect_chunk(ground, chunk),
            Place::Rows(chunk) => self.place_chunk(ground.chunks.rows(chunk)),
            Place::Close(section, rest) => self.close_section(ground, taken, section, rest),
            Place::Wait(_, _)
            | Place::Discard(_)
            | Place::Idle
            | Place::Memory(_)
            | Place::Headers(_)
            | Place::Format(_) => Ok(()),
        }
    }

    #[tactic(auto, unfolding(wild_plan_spec::specs::Steps::step))]
    fn step(
        &mut self,
        ground: &Ground<'_>,
        taken: &Taken,
        number: usize,
        place: &Place<'_>,
    ) -> Result<(), Fault>
        requires { AreTakenBefore (is_floating (shown_ground ground.now)) (known_of self.old.addresses) (shown_place place.now) (ends_of taken.now) }
        ensures { Moves result self.new (step (shown_ground ground.now) number (shown_place place.now) (state_of self.old)) }
    {
        self.note_dot(number, place)?;
        self.have_effect(ground, taken, number, place)
    }
}

/// Lays out the places: what stands after the last one, or the fault of the first that refuses.
pub fn lay_out(ground: &Ground<'_>, places: &[Place<'_>]) -> Result<Walk, Fault>
    requires { (sections : ℕ) × Nests (Free 0) (shown_places places.now) (Free sections) }
    ensures laid_out { IfOk result (λ walk. Stands (shown_ground ground.now) (shown_places places.now) (length (shown_places places.now)) (state_of walk)) }
    ensures refused { IfErr result (λ f. (f ≡ fault.NoMemory) ⊎ Refuses (shown_ground ground.now) (shown_places places.now) f) }
{
    let mut walk = Walk::new(ground)?;
    let mut taken = Taken::new(ground.alloc);
    for (number, place) in places.iter().enumerate() {
        walk.step(ground, &taken, number, place)?;
        taken.note(ground, &walk.addresses, place)?;
    }
    Ok(walk)
}
