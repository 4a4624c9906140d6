//! Alignments, ids and maps from them, on a small platform.

use crate::alignment::NUM_ALIGNMENTS;
use crate::*;
use std::test::Fail;

/// Two single parts, and `.text`, `.data`, `.bss` and `.rodata`.
#[derive(Debug, Clone, Copy)]
struct Four;

impl PlatformIds for Four {
    ghost use Rattle.std.proofs.Common.{refl, lit≤, lit<};
    ghost use Rattle.std.specs.Prelude.{Some, None, ◌==◌};

    const NUM_SINGLE_PART_SECTIONS: u32 = 2;

    const NUM_BUILT_IN_REGULAR_SECTIONS: usize = 4;

    const TEXT_SECTION_ID: Option<OutputSectionId> = Some(OutputSectionId(2));

    const DATA_SECTION_ID: Option<OutputSectionId> = Some(OutputSectionId(3));

    const BSS_SECTION_ID: Option<OutputSectionId> = Some(OutputSectionId(4));

    const RODATA_SECTION_ID: Option<OutputSectionId> = Some(OutputSectionId(5));

    const TDATA_SECTION_ID: Option<OutputSectionId> = None;

    const TBSS_SECTION_ID: Option<OutputSectionId> = None;

    const EH_FRAME_SECTION_ID: Option<OutputSectionId> = None;

    const NOTE_GNU_PROPERTY_SECTION_ID: Option<OutputSectionId> = None;

    const RISCV_ATTRIBUTES_SECTION_ID: Option<OutputSectionId> = None;

    ghost NUM_SINGLE_PART_SECTIONS = { 2 };

    ghost NUM_BUILT_IN_REGULAR_SECTIONS = { 4 };

    ghost TEXT_SECTION_ID = { Some 2 };

    ghost DATA_SECTION_ID = { Some 3 };

    ghost BSS_SECTION_ID = { Some 4 };

    ghost RODATA_SECTION_ID = { Some 5 };

    ghost TDATA_SECTION_ID = { None };

    ghost TBSS_SECTION_ID = { None };

    ghost EH_FRAME_SECTION_ID = { None };

    ghost NOTE_GNU_PROPERTY_SECTION_ID = { None };

    ghost RISCV_ATTRIBUTES_SECTION_ID = { None };

    ghost part_of = { λ section. section };

    ghost section_of = { λ part. part };

    ghost is_packed = { λ section. section == 1 };

    ghost two_single_parts = { lit≤ tt };

    ghost built_in_fit = { lit< tt };

    ghost parts_and_back = { λ n below. record { stays = below; returns = refl } };

    ghost sections_and_back = { λ n below. record { stays = below; returns = refl } };

    fn single_part_id(section: OutputSectionId) -> Option<PartId> {
        if section.0 < 2 {
            Some(PartId(section.0))
        } else {
            None
        }
    }

    fn single_part_output_section_id(part: PartId) -> Option<OutputSectionId> {
        if part.0 < 2 {
            Some(OutputSectionId(part.0))
        } else {
            None
        }
    }

    fn is_packed(section: OutputSectionId) -> bool {
        section.0 == 1
    }
}

#[test]
fn alignments(rt: HostRuntime) {
    for (case, raw, wanted) in [
        ("no bytes", 0, Err(AlignmentFault::NotPowerOfTwo)),
        ("a sum of powers", 24, Err(AlignmentFault::NotPowerOfTwo)),
        ("the least", 1, Ok(alignment::MIN)),
        ("a machine word", 8, Ok(alignment::USIZE)),
        ("the largest", 0x200000, Ok(alignment::MAX)),
        ("above the largest", 0x400000, Err(AlignmentFault::TooLarge)),
    ] {
        assert_eq!(rt; Alignment::new(raw), wanted, "{case}");
    }
    assert_eq!(rt; Alignment::from_exponent(22), Err(AlignmentFault::TooLarge));
}

#[test]
fn multiples(rt: HostRuntime) {
    for (case, alignment, value, wanted) in [
        ("of one", alignment::MIN, 5, Some(5)),
        ("of eight, from 0", alignment::USIZE, 0, Some(0)),
        ("of eight, from a multiple", alignment::USIZE, 8, Some(8)),
        ("of eight, from above one", alignment::USIZE, 9, Some(16)),
        (
            "the last that fits",
            alignment::VERSYM,
            u64::MAX - 1,
            Some(u64::MAX - 1),
        ),
        ("none fits", alignment::VERSYM, u64::MAX, None),
    ] {
        assert_eq!(rt; alignment.try_align_up(value), wanted, "{case}");
    }
}

#[test]
fn rounding(rt: HostRuntime) -> Result<(), Fail> {
    let page = Alignment::from_exponent(12)?;
    assert_eq!(rt; page.value(), 4096);
    assert_eq!(rt; page.align_modulo(0x2afce, 0x42af7e), 0x42bfce);
    assert_eq!(rt; page.align_modulo(0x123456, 0x987222), 0x988456);
    assert_eq!(rt; Alignment::new(16), Ok(alignment::PLT));
    let sixteen = alignment::PLT;
    assert_eq!(rt; sixteen.align_up(31), 32);
    assert_eq!(rt; sixteen.align_up_usize(16), 16);
    assert_eq!(rt; sixteen.align_down(17), 16);
    assert_eq!(rt; sixteen.mask(), 15);
    assert_eq!(rt; format!(in rt.alloc(); "{sixteen}")?.as_str(), "16");
    assert!(rt; Alignment::default() < page);
    Ok(())
}

#[test]
fn constants(rt: HostRuntime) -> Result<(), Fail> {
    for (case, constant, exponent) in [
        ("MIN", alignment::MIN, 0),
        ("VERSYM", alignment::VERSYM, 1),
        ("SYMTAB_SHNDX_ENTRY", alignment::SYMTAB_SHNDX_ENTRY, 2),
        ("SYSV_HASH", alignment::SYSV_HASH, 2),
        ("EH_FRAME_HDR", alignment::EH_FRAME_HDR, 2),
        ("NOTE_GNU_BUILD_ID", alignment::NOTE_GNU_BUILD_ID, 2),
        ("USIZE", alignment::USIZE, 3),
        ("PLT", alignment::PLT, 4),
        ("STACK_ALIGNMENT", alignment::STACK_ALIGNMENT, 4),
        ("MACHO_PAGE_ALIGNMENT", alignment::MACHO_PAGE_ALIGNMENT, 14),
        ("MAX", alignment::MAX, 21),
    ] {
        assert_eq!(rt; Alignment::from_exponent(exponent), Ok(constant), "{case}");
    }
    assert_eq!(rt; alignment::MACHO_PAGE_ALIGNMENT_VALUE, 16384);
    assert_eq!(rt; NUM_ALIGNMENTS, 22);
    assert_eq!(rt; PartId::CUSTOM_PLACEHOLDER.as_u32(), 0xffff_ffff);
    assert_eq!(rt; NUM_COMMON_SINGLE_PART_SECTIONS, 2);
    Ok(())
}

#[test]
fn parts_of_sections(rt: HostRuntime) -> Result<(), Fail> {
    let data = OutputSectionId(3);
    let range = data.part_id_range::<Four>();
    assert_eq!(rt; range.start, PartId(24));
    assert_eq!(rt; range.end, PartId(46));
    assert_eq!(rt; data.parts::<Four>().count(), data.num_parts::<Four>());
    let of_eight = data.part_id_with_alignment::<Four>(alignment::USIZE);
    assert_eq!(rt; of_eight, PartId(42));
    assert_eq!(rt; of_eight.output_section_id::<Four>(), data);
    assert!(rt; data.is_regular::<Four>() && !data.is_custom::<Four>());
    assert_eq!(rt; regular_section_base::<Four>().as_usize(), 2);
    assert_eq!(rt; regular_part_base::<Four>(), PartId::from_usize(2));
    assert_eq!(rt; num_built_in_sections::<Four>(), 6);
    let header = CommonSinglePartSectionId::FileHeader;
    assert_eq!(rt; header.part_id(), part_id::FILE_HEADER);
    assert_eq!(rt; header.output_section_id(), output_section_id::FILE_HEADER);
    assert_eq!(rt;
        output_section_id::UNMAPPED.base_part_id::<Four>(),
        part_id::UNMAPPED
    );
    assert!(rt; part_id::FILE_HEADER.should_pack::<Four>());
    assert_eq!(rt;
        OutputSectionId::from_u32(3).offset(1),
        OutputSectionId::from_usize(4)
    );
    assert_eq!(rt; PartId::from_u32(3).offset(1).as_usize(), 4);
    assert_eq!(rt;
        format!(in rt.alloc(); "{data} {of_eight}")?.as_str(),
        "3 42"
    );
    Ok(())
}

#[test]
fn maps_from_sections(rt: HostRuntime) -> Result<(), Fail> {
    let alloc = rt.alloc();
    let zeros: OutputSectionMap<u64> = OutputSectionMap::with_size(alloc, 3)?;
    let mut ones = zeros.into_map(alloc, |value| if value == 0 { 1 } else { 7 })?;
    assert!(rt; ones.values_iter().all(|value| *value == 1) && ones.len() == 3);
    assert_eq!(rt; ones.add_new(5), Ok(OutputSectionId(3)));
    assert!(rt; ones.len() == 4);
    assert_eq!(rt; *ones.get(OutputSectionId(3)), 5);
    *ones.get_mut(OutputSectionId(1)) = 2;
    ones.for_each_mut(|id, value| {
        if id.as_u32() == 3 {
            *value = 9;
        }
    });
    for (wanted, (id, value)) in [(0, 1), (1, 2), (2, 1), (3, 9)]
        .into_iter()
        .zip(ones.iter())
    {
        assert_eq!(rt; (id.as_u32(), *value), wanted);
    }
    Ok(())
}

#[test]
fn closures_in_order(rt: HostRuntime) -> Result<(), Fail> {
    let map = OutputSectionMap::from_values(vec![in rt.alloc(); 4, 5, 6]?);
    let mut last = (9, 9);
    map.for_each(|id, value| last = (id.as_u32(), *value));
    assert!(rt; last == (2, 6));
    let refused = map.try_for_each(|id, value| if *value > 4 { Err(id) } else { Ok(()) });
    assert_eq!(rt; refused, Err(OutputSectionId(1)));
    assert_eq!(rt;
        map.try_for_each(|_, value| if *value > 6 { Err(0) } else { Ok(()) }),
        Ok(())
    );
    Ok(())
}
