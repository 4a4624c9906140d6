//! A plan of many sections, which would not end in a test's time if each were compared with all before it.

use std::alloc::{AllocError, Global};
use std::fmt::Write;
use std::test::Fail;
use wild_names::{Architecture, Fault, InputFlags, Name, NoMemory, RelocationModel};
use wild_output_kind::OutputKind;
use wild_plan::{InputRow, InputRows, InputTable, Plan, PlanOptions, SymbolRows, plan};

/// How many sections there are.
const SECTIONS: u64 = 10_000;

// Sections of two patterns each, and a symbol behind each of them.
fn script(alloc: Global) -> Result<String, AllocError> {
    let mut script = String::new(alloc);
    script.push_str("SECTIONS { . = 0x10000;")?;
    for number in 0..SECTIONS {
        write!(
            script,
            " .s{number} : {{ *(.s{number} .s{number}.*) }} e{number} = .;"
        )?;
    }
    script.push_str(" }")?;
    Ok(script)
}

// The row of this number, out of four of a section.
fn row(alloc: Global, section: u64, number: u64) -> Result<InputRow, NoMemory> {
    let mut file = String::new(alloc);
    write!(file, "f{number}.o")?;
    let mut name = String::new(alloc);
    write!(name, ".s{section}")?;
    if number > 0 {
        write!(name, ".{number}")?;
    }
    Ok(InputRow {
        file: Name::new(alloc, file.as_bytes())?,
        section: Name::new(alloc, name.as_bytes())?,
        size: 16 * (number % 4) + section % 7,
        alignment: 1 << (number % 4),
        flags: InputFlags::ALLOC | InputFlags::EXEC,
    })
}

// Four rows for each section.
fn table(alloc: Global) -> Result<InputTable, NoMemory> {
    let mut rows = InputRows::new(alloc);
    for number in 0..4 * SECTIONS {
        rows.push(row(alloc, number / 4, number % 4)?)?;
    }
    Ok(InputTable {
        rows,
        symbols: SymbolRows::new(alloc),
    })
}

fn plan_of_all(alloc: Global) -> Result<Plan, Fault> {
    let options = PlanOptions {
        architecture: Architecture::X86_64,
        endian: None,
        kind: OutputKind::StaticExecutable(RelocationModel::Fixed),
        header_size: 0,
        segment_starts: [None; 3],
    };
    plan(alloc, script(alloc)?.as_bytes(), &table(alloc)?, &options)
}

#[test]
fn many_sections(rt: HostRuntime) -> Result<(), Fail> {
    let Ok(plan) = plan_of_all(rt.alloc()) else {
        panic!(rt; "there is no plan");
    };
    assert_eq!(rt; plan.sections().len(), 10_000);
    assert_eq!(rt; plan.placements().len(), 40_000);
    assert_eq!(rt; plan.symbols().len(), 10_000);
    assert_eq!(rt; plan.segments().len(), 2);
    let mut size = 0_u64;
    let mut end = 0_u64;
    for section in plan.sections() {
        size = size.wrapping_add(section.size);
        end = section.start.wrapping_add(section.size);
    }
    assert_eq!(rt; size, 1_138_550);
    assert_eq!(rt; end, 1_231_219);
    Ok(())
}
