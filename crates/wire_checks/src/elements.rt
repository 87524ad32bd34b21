// Elements: their octets, damaged ones, parts of another length.
use answers::Fault;
use bytesable::{Block, Bytesable, Ray, Tweak};
use std::test::Fail;

const RAY: Ray = Ray {
    surface: 0x0102_0304,
    height: -2,
    path: 0x1122_3344_5566_7788,
};

const RAY_OCTETS: [u8; 29] = [
    1, 0, 4, 1, 2, 3, 4, 2, 0, 8, 255, 255, 255, 255, 255, 255, 255, 254, 3, 0, 8, 0x11, 0x22,
    0x33, 0x44, 0x55, 0x66, 0x77, 0x88,
];

#[test]
fn a_ray_has_three_fields(rt: HostRuntime) -> Result<(), Fail> {
    let mut out = [0u8; 29];
    RAY.into_bytes(&mut out)?;
    assert_eq!(rt; out, RAY_OCTETS);
    assert_eq!(rt; RAY.length_in_bytes(), 29);
    let mut back = Ray {
        surface: 0,
        height: 0,
        path: 0,
    };
    back.from_bytes(&out)?;
    assert!(rt; back.same(&RAY));
    Ok(())
}

#[test]
fn tweaks_are_bit_patterns(rt: HostRuntime) -> Result<(), Fail> {
    let mut out = [0u8; 11];
    Tweak::Thickness(1.0).into_bytes(&mut out)?;
    assert_eq!(rt; out, [0x10, 0, 8, 0x3f, 0xf0, 0, 0, 0, 0, 0, 0]);
    Tweak::Index(-0.0).into_bytes(&mut out)?;
    assert_eq!(rt; out, [0x12, 0, 8, 0x80, 0, 0, 0, 0, 0, 0, 0]);
    Tweak::Thickness(0.0 / 0.0).into_bytes(&mut out)?;
    assert_eq!(rt; out, [0x10, 0, 8, 0x7f, 0xf8, 0, 0, 0, 0, 0, 0]);
    let mut tilt = [0u8; 19];
    Tweak::Tilt(1.0, -2.0).into_bytes(&mut tilt)?;
    assert_eq!(rt;
        tilt,
        [
            0x11, 0, 16, 0x3f, 0xf0, 0, 0, 0, 0, 0, 0, 0xc0, 0, 0, 0, 0, 0, 0, 0,
        ]
    );
    Ok(())
}

#[test]
fn a_damaged_ray_is_told_by_tags_and_lengths(rt: HostRuntime) {
    for place in 0..29usize {
        for damage in 1..=255u8 {
            let mut bytes = RAY_OCTETS;
            bytes[place] ^= damage;
            let mut ray = RAY;
            let framed = place < 3 || (place >= 7 && place < 10) || (place >= 18 && place < 21);
            if framed {
                assert_eq!(rt; ray.from_bytes(&bytes), Err(Fault::NoValue));
                assert!(rt; ray.same(&RAY));
            } else {
                assert_eq!(rt; ray.from_bytes(&bytes), Ok(()));
                assert!(rt; !ray.same(&RAY));
            }
        }
    }
}

// Whether the octets are a tweak; where they are none, the lent value stays.
fn is_tweak(bytes: &[u8]) -> Result<bool, Fail> {
    let before = Tweak::Tilt(3.0, 4.0);
    let mut tweak = before;
    match tweak.from_bytes(bytes) {
        Ok(()) => Ok(true),
        Err(Fault::NoValue) if tweak.same(&before) => Ok(false),
        Err(fault) => Err(fault.into()),
    }
}

#[test]
fn a_damaged_tweak_is_told_by_tag_and_length(rt: HostRuntime) -> Result<(), Fail> {
    for octet in 0..=255u8 {
        assert_eq!(rt;
            is_tweak(&[octet, 0, 8, 1, 2, 3, 4, 5, 6, 7, 8])?,
            octet == 0x10 || octet == 0x12
        );
        assert_eq!(rt;
            is_tweak(&[0x12, octet, 8, 1, 2, 3, 4, 5, 6, 7, 8])?,
            octet == 0
        );
        assert_eq!(rt;
            is_tweak(&[0x12, 0, octet, 1, 2, 3, 4, 5, 6, 7, 8])?,
            octet == 8
        );
        let tilt = [octet, 0, 16, 1, 2, 3, 4, 5, 6, 7, 8, 1, 2, 3, 4, 5, 6, 7, 8];
        assert_eq!(rt; is_tweak(&tilt)?, octet == 0x11);
        assert_eq!(rt;
            is_tweak(&[
                0x11, 0, octet, 1, 2, 3, 4, 5, 6, 7, 8, 1, 2, 3, 4, 5, 6, 7, 8,
            ])?,
            octet == 16
        );
    }
    Ok(())
}

#[test]
fn one_not_a_number_is_read(rt: HostRuntime) -> Result<(), Fail> {
    let pattern = 0x7ff8_0000_0000_0000u64;
    for place in 0..8u32 {
        for damage in 0..=255u64 {
            let damaged = pattern ^ (damage << (8 * place));
            let number = damaged % (1 << 63) <= 0x7ff0_0000_0000_0000;
            let octets = damaged.to_be_bytes();
            let mut field = [0x12u8, 0, 8, 0, 0, 0, 0, 0, 0, 0, 0];
            field[3..11].copy_from_slice(&octets);
            assert_eq!(rt; is_tweak(&field)?, number || damage == 0);
            let mut tilt = [
                0x11u8, 0, 16, 0, 0, 0, 0, 0, 0, 0, 0, 0, 0, 0, 0, 0, 0, 0, 0,
            ];
            tilt[11..19].copy_from_slice(&octets);
            assert_eq!(rt; is_tweak(&tilt)?, number || damage == 0);
        }
    }
    Ok(())
}

#[test]
fn sameness_goes_by_octets(rt: HostRuntime) -> Result<(), Fail> {
    let nan = 0.0 / 0.0;
    assert!(rt; Tweak::Index(nan).same(&Tweak::Index(nan)));
    assert!(rt; !Tweak::Index(0.0).same(&Tweak::Index(-0.0)));
    assert!(rt; !Tweak::Index(1.0).same(&Tweak::Thickness(1.0)));
    assert!(rt; !Tweak::Tilt(1.0, 2.0).same(&Tweak::Tilt(1.0, 3.0)));
    assert!(rt; !Tweak::Tilt(1.0, 2.0).same(&Tweak::Tilt(0.0, 2.0)));
    assert!(rt; Tweak::Tilt(1.0, nan).same(&Tweak::Tilt(1.0, nan)));
    let one = Block::new(&[1, 2, 3])?;
    assert!(rt; one.same(&Block::new(&[1, 2, 3])?));
    assert!(rt; !one.same(&Block::new(&[1, 2, 4])?));
    assert!(rt; !one.same(&Block::new(&[1, 2])?));
    Ok(())
}

#[test]
fn a_part_has_the_length_of_its_element(rt: HostRuntime) {
    let mut bytes = [9u8; 40];
    assert_eq!(rt; RAY.into_bytes(&mut bytes[0..28]), Err(Fault::Mismatched));
    assert_eq!(rt; RAY.into_bytes(&mut bytes[0..30]), Err(Fault::Mismatched));
    assert_eq!(rt;
        Tweak::Index(1.0).into_bytes(&mut bytes[0..10]),
        Err(Fault::Mismatched)
    );
    assert_eq!(rt;
        Tweak::Index(1.0).into_bytes(&mut bytes[0..12]),
        Err(Fault::Mismatched)
    );
    assert_eq!(rt;
        Tweak::Tilt(1.0, 2.0).into_bytes(&mut bytes[0..18]),
        Err(Fault::Mismatched)
    );
    assert_eq!(rt;
        Tweak::Tilt(1.0, 2.0).into_bytes(&mut bytes[0..20]),
        Err(Fault::Mismatched)
    );
    assert_eq!(rt;
        Block::empty().into_bytes(&mut bytes[0..1]),
        Err(Fault::Mismatched)
    );
    assert_eq!(rt; bytes, [9u8; 40]);
}

#[test]
fn an_element_is_read_of_all_its_octets(rt: HostRuntime) -> Result<(), Fail> {
    let mut ray = RAY;
    let mut long = [0u8; 30];
    long[0..29].copy_from_slice(&RAY_OCTETS);
    assert_eq!(rt; ray.from_bytes(&long), Err(Fault::NoValue));
    assert_eq!(rt; ray.from_bytes(&RAY_OCTETS[0..28]), Err(Fault::NoValue));
    assert_eq!(rt; ray.from_bytes(&[]), Err(Fault::NoValue));
    assert!(rt; !is_tweak(&[0x10, 0, 8, 1, 2, 3, 4, 5, 6, 7])?);
    assert!(rt; !is_tweak(&[0x10, 0, 8, 1, 2, 3, 4, 5, 6, 7, 8, 9])?);
    Ok(())
}

#[test]
fn a_block_has_up_to_ninety_six_octets(rt: HostRuntime) -> Result<(), Fail> {
    let bytes = [0x5au8; 97];
    for size in 0..97usize {
        let block = Block::new(&bytes[0..size])?;
        assert_eq!(rt; block.length_in_bytes(), size);
        assert!(rt; block.as_bytes() == &bytes[0..size]);
    }
    assert_eq!(rt; Block::new(&bytes).err(), Some(Fault::NoValue));
    let mut block = Block::new(&[1, 2, 3])?;
    assert_eq!(rt; block.from_bytes(&bytes), Err(Fault::NoValue));
    assert!(rt; block.as_bytes() == [1, 2, 3].as_slice());
    block.from_bytes(&[])?;
    assert_eq!(rt; block.length_in_bytes(), 0);
    Ok(())
}
