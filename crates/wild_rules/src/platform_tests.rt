//! Sections without names, orphans and merges, on a small platform.

ghost use Rattle.std.specs.Prelude.{◌≡◌};

use crate::*;
use std::marker::Brand;
use std::sync::ledger::{Blank, Ledger};
use std::test::Fail;
use wild_base::{
    Architecture, Args, Endianness, OutputSectionId, PartId, PlatformIds, RelocationModel,
    SectionHeader, SegmentName, Steps,
};

/// Two single parts, and six regular sections. `.eh_frame` is `.note.gnu.property` too, and no one has `.tbss`.
#[derive(Debug, Clone, Copy)]
pub(crate) struct Six;

impl PlatformIds for Six {
    ghost use Rattle.std.proofs.Common.{refl, lit≤, lit<};
    ghost use Rattle.std.specs.Prelude.{Some, None, false};

    const NUM_SINGLE_PART_SECTIONS: u32 = 2;

    const NUM_BUILT_IN_REGULAR_SECTIONS: usize = 6;

    const TEXT_SECTION_ID: Option<OutputSectionId> = Some(OutputSectionId(2));

    const DATA_SECTION_ID: Option<OutputSectionId> = Some(OutputSectionId(3));

    const BSS_SECTION_ID: Option<OutputSectionId> = Some(OutputSectionId(4));

    const RODATA_SECTION_ID: Option<OutputSectionId> = Some(OutputSectionId(5));

    const TDATA_SECTION_ID: Option<OutputSectionId> = Some(OutputSectionId(6));

    const TBSS_SECTION_ID: Option<OutputSectionId> = None;

    const EH_FRAME_SECTION_ID: Option<OutputSectionId> = Some(OutputSectionId(7));

    const NOTE_GNU_PROPERTY_SECTION_ID: Option<OutputSectionId> = Some(OutputSectionId(7));

    const RISCV_ATTRIBUTES_SECTION_ID: Option<OutputSectionId> = Some(OutputSectionId(6));

    ghost NUM_SINGLE_PART_SECTIONS = { 2 };

    ghost NUM_BUILT_IN_REGULAR_SECTIONS = { 6 };

    ghost TEXT_SECTION_ID = { Some 2 };

    ghost DATA_SECTION_ID = { Some 3 };

    ghost BSS_SECTION_ID = { Some 4 };

    ghost RODATA_SECTION_ID = { Some 5 };

    ghost TDATA_SECTION_ID = { Some 6 };

    ghost TBSS_SECTION_ID = { None };

    ghost EH_FRAME_SECTION_ID = { Some 7 };

    ghost NOTE_GNU_PROPERTY_SECTION_ID = { Some 7 };

    ghost RISCV_ATTRIBUTES_SECTION_ID = { Some 6 };

    ghost part_of = { λ section. section };

    ghost section_of = { λ part. part };

    ghost is_packed = { λ section. false };

    ghost two_single_parts = { lit≤ tt };

    ghost built_in_fit = { lit< tt };

    ghost parts_and_back = { λ n below. record { stays = below; returns = refl } };

    ghost sections_and_back = { λ n below. record { stays = below; returns = refl } };

    fn single_part_id(section: OutputSectionId) -> Option<PartId> {
        if section.0 < 2 {
            Some(PartId(section.0))
        } else {
            None
        }
    }

    fn single_part_output_section_id(part: PartId) -> Option<OutputSectionId> {
        if part.0 < 2 {
            Some(OutputSectionId(part.0))
        } else {
            None
        }
    }

    fn is_packed(_section: OutputSectionId) -> bool {
        false
    }
}

/// What the header of a section in memory with bits, or of zeros, tells.
#[derive(Debug, Clone, Copy)]
pub(crate) struct Header {
    exclude: bool,
    null: bool,
    memory: bool,
    bits: bool,
    code: bool,
    write: bool,
    thread: bool,
    merge: bool,
    group: bool,
}

const NOTHING: Header = Header {
    exclude: false,
    null: false,
    memory: false,
    bits: false,
    code: false,
    write: false,
    thread: false,
    merge: false,
    group: false,
};

impl SectionHeader for Header {
    ghost use Rattle.std.specs.Prelude.{not, false};

    ghost should_exclude = { λ header. header.exclude };

    ghost is_null = { λ header. header.null };

    ghost is_alloc = { λ header. header.memory };

    ghost is_prog_bits = { λ header. header.bits };

    ghost is_no_bits = { λ header. not header.bits };

    ghost is_executable = { λ header. header.code };

    ghost is_writable = { λ header. header.write };

    ghost is_tls = { λ header. header.thread };

    ghost is_merge_section = { λ header. header.merge };

    ghost is_group = { λ header. header.group };

    ghost is_group_header = { λ header. false };

    fn should_exclude(&self) -> bool {
        self.exclude
    }

    fn is_null(&self) -> bool {
        self.null
    }

    fn is_alloc(&self) -> bool {
        self.memory
    }

    fn is_prog_bits(&self) -> bool {
        self.bits
    }

    fn is_no_bits(&self) -> bool {
        !self.bits
    }

    fn is_executable(&self) -> bool {
        self.code
    }

    fn is_writable(&self) -> bool {
        self.write
    }

    fn is_tls(&self) -> bool {
        self.thread
    }

    fn is_merge_section(&self) -> bool {
        self.merge
    }

    fn is_group(&self) -> bool {
        self.group
    }

    fn is_group_header(&self) -> bool {
        false
    }
}

#[derive(Debug, Clone, Copy)]
struct Asked {
    merge: bool,
    partial: bool,
}

impl Args for Asked {
    ghost use Rattle.std.specs.Prelude.{false, None};
    ghost use Rattle.wild_names.specs.declared.target.Architecture.TheVariants as arch;
    ghost use Rattle.wild_names.specs.declared.target.RelocationModel.TheVariants as model;

    ghost architecture = { λ _. arch.X86_64 };

    ghost output_format_endian = { λ _. None };

    ghost relocation_model = { λ _. model.Fixed };

    ghost has_dynamic_linker = { λ _. false };

    ghost should_merge_sections = { λ asked. asked.merge };

    ghost should_output_partial_object = { λ asked. asked.partial };

    ghost should_output_executable = { λ _. false };

    ghost start_address_for_section = { λ _ _. None };

    ghost segment_start_override = { λ _ _. None };

    fn architecture(&self) -> Architecture {
        Architecture::X86_64
    }

    fn output_format_endian(&self) -> Option<Endianness> {
        None
    }

    fn relocation_model(&self) -> RelocationModel {
        RelocationModel::Fixed
    }

    fn has_dynamic_linker(&self) -> bool {
        false
    }

    fn should_merge_sections(&self) -> bool {
        self.merge
    }

    fn should_output_partial_object(&self) -> bool {
        self.partial
    }

    fn should_output_executable(&self) -> bool {
        false
    }

    fn start_address_for_section(&self, _name: &[u8]) -> Option<u64> {
        None
    }

    fn segment_start_override(&self, _name: SegmentName) -> Option<u64> {
        None
    }
}

pub(crate) fn section(id: u32) -> SectionRuleOutcome {
    SectionRuleOutcome::Section(SectionOutputInfo::regular(OutputSectionId(id)))
}

/// In memory, written, and zeros.
const ZEROS: Header = Header {
    memory: true,
    write: true,
    ..NOTHING
};

/// In memory, written, and with bits.
const BITS: Header = Header {
    bits: true,
    ..ZEROS
};

/// The same, but only read.
pub(crate) const READ: Header = Header {
    write: false,
    ..BITS
};

#[test]
fn homes_of_zeros(rt: HostRuntime) {
    let thread = Header {
        thread: true,
        ..ZEROS
    };
    for (case, header, wanted) in [
        ("not in memory", NOTHING, SectionRuleOutcome::Discard),
        ("zeros", ZEROS, section(4)),
        ("each thread's own", thread, SectionRuleOutcome::Discard),
    ] {
        assert!(rt;
            unnamed_section_output::<Six, _>(&header) == wanted,
            "{case}"
        );
    }
}

#[test]
fn homes_of_bits(rt: HostRuntime) {
    let thread = Header {
        thread: true,
        ..BITS
    };
    let code = Header {
        code: true,
        ..thread
    };
    for (case, header, wanted) in [
        ("written", BITS, section(3)),
        ("each thread's own", thread, section(6)),
        ("code", code, section(2)),
        ("only read", READ, section(5)),
    ] {
        assert!(rt;
            unnamed_section_output::<Six, _>(&header) == wanted,
            "{case}"
        );
    }
}

// `lookup_counted`, with steps of this ledger.
fn lookup_counted<L: Ledger>(
    blank: Blank,
    rules: &SectionRules,
    name: &[u8],
    header: &Header,
) -> SectionRuleOutcome
    requires name { blank.name ≡ L.name }
    requires parts { blank.parts ≡ L.parts }
    requires one { blank.parts ≡ 1 }
{
    let mut steps: Steps<L> = Steps::new(blank);
    rules.lookup_counted::<Six, _, L>(name, None, header, &mut steps)
}

#[test]
fn lookups(rt: HostRuntime) -> Result<(), Fail> {
    let alloc = rt.alloc();
    let rule = SectionRule::prefix(alloc, b".te", SectionRuleOutcome::EhFrame)?;
    let rules = SectionRules::from_rules(alloc, &[rule])?;
    let excluded = Header {
        exclude: true,
        ..READ
    };
    for (case, name, header, wanted) in [
        (
            "a rule matches",
            b".text".as_slice(),
            READ,
            SectionRuleOutcome::EhFrame,
        ),
        ("excluded", b".text", excluded, SectionRuleOutcome::Discard),
        ("no name", b"", READ, section(5)),
        (
            "no rule matches",
            b".data",
            READ,
            SectionRuleOutcome::Custom,
        ),
    ] {
        assert!(rt;
            rules.lookup::<Six, _>(name, None, &header) == wanted,
            "{case}"
        );
        let counted = lookup_counted::<Brand>(Blank::new(1), &rules, name, &header);
        assert!(rt; counted == wanted, "{case}, counted");
    }
    Ok(())
}

#[test]
fn orphans(rt: HostRuntime) -> Result<(), Fail> {
    let alloc = rt.alloc();
    let discard = SectionRule::exact(alloc, b".no", SectionRuleOutcome::Discard)?;
    let outside = SectionRule::prefix(alloc, b".te", SectionRuleOutcome::Debug)?;
    let section_rules = SectionRules::from_rules(alloc, &[discard, outside])?;
    let rules = LayoutRules {
        section_rules,
        has_linker_script: true,
    };
    let excluded = Header {
        exclude: true,
        ..NOTHING
    };
    let null = Header {
        null: true,
        ..NOTHING
    };
    for (case, name, header, wanted) in [
        ("a rule from outside", b".text".as_slice(), NOTHING, true),
        ("no rule", b".data", NOTHING, true),
        ("no name", b"", NOTHING, true),
        ("discarded from outside", b".no", NOTHING, false),
        ("excluded", b".data", excluded, false),
        ("null", b".data", null, false),
    ] {
        assert!(rt; rules.is_orphan(name, None, &header) == wanted, "{case}");
    }
    Ok(())
}

#[test]
fn no_orphans(rt: HostRuntime) -> Result<(), Fail> {
    let alloc = rt.alloc();
    let rule = SectionRule::new(alloc, b".text", None, SectionRuleOutcome::Debug);
    let rule = rule.expect(&rt, "a rule");
    let section_rules = SectionRules::from_rules(alloc, &[rule])?;
    let mut rules = LayoutRules {
        section_rules,
        has_linker_script: true,
    };
    assert!(rt; !rules.is_orphan(b".text", None, &NOTHING));
    assert!(rt; rules.is_orphan(b".data", None, &NOTHING));
    rules.has_linker_script = false;
    assert!(rt; !rules.is_orphan(b".text", None, &NOTHING));
    Ok(())
}

#[test]
fn merges(rt: HostRuntime) {
    let alone = Header {
        merge: true,
        ..NOTHING
    };
    let grouped = Header {
        group: true,
        ..alone
    };
    let program = Asked {
        merge: true,
        partial: false,
    };
    let partial = Asked {
        merge: true,
        partial: true,
    };
    let unasked = Asked {
        merge: false,
        partial: false,
    };
    for (case, header, alignment, args, wanted) in [
        ("alignment 1", alone, 1, program, true),
        ("alignment 0", alone, 0, partial, true),
        ("alignment 2", alone, 2, program, false),
        ("not to be merged", NOTHING, 1, program, false),
        ("not asked for", alone, 1, unasked, false),
        ("a group in a program", grouped, 1, program, true),
        ("a group in a partial object", grouped, 1, partial, false),
    ] {
        assert!(rt;
            should_merge_sections(&header, alignment, &args) == wanted,
            "{case}"
        );
    }
}

#[test]
fn outcomes_of_ids(rt: HostRuntime) {
    for (case, id, wanted) in [
        ("the first of two", 7, SectionRuleOutcome::EhFrame),
        ("attributes", 6, SectionRuleOutcome::RiscVAttribute),
        ("any other", 2, section(1)),
    ] {
        let info = SectionOutputInfo::regular(OutputSectionId(1));
        let outcome = SectionRuleOutcome::section_rule_from_id::<Six>(OutputSectionId(id), info);
        assert!(rt; outcome == wanted, "{case}");
    }
}
