// Headers: torn streams, overlong lengths, parts of another length.
use answers::Fault;
use bytesable::{Block, Ray, Tweak};
use framing::write_message;
use networking::{MessageHeader, closing_header};
use std::alloc::Global;
use std::test::Fail;

const HEADER: MessageHeader = MessageHeader {
    channel: 5,
    source: 1,
    target_lower: 2,
    target_upper: 4,
    length: 0,
    seqno: 0x0102_0304_0506_0708,
};

const RAY: Ray = Ray {
    surface: 3,
    height: -5,
    path: 77,
};

// A Ray's message of 77 bytes, a thickness' of 59, the closing header, and 16 bytes that belong to nothing.
fn stream(heap: Global) -> Result<Vec<u8>, Fail> {
    let mut ray = [0u8; 77];
    write_message(&HEADER, &RAY, &mut ray)?;
    let mut thickness = [0u8; 59];
    write_message(&HEADER, &Tweak::Thickness(1.0), &mut thickness)?;
    let mut stream = ray.to_vec(heap)?;
    stream.extend_from_slice(&thickness)?;
    stream.extend_from_slice(&closing_header())?;
    stream.extend_from_slice(&[0xa5; 16])?;
    Ok(stream)
}

// The front of the stream, and what is behind some of it.
fn part(stream: &Vec<u8>, start: usize, end: usize) -> Result<&[u8], Fail> {
    Ok(stream.as_slice().get(start..end).ok_or("no such part")?)
}

#[test]
fn a_header_waits_for_its_payload(rt: HostRuntime) -> Result<(), Fail> {
    let stream = stream(rt.alloc())?;
    assert_eq!(rt; stream.len(), 200);
    let whole = MessageHeader {
        length: 29,
        ..HEADER
    };
    for end in 0..201usize {
        let read = MessageHeader::try_read(part(&stream, 0, end)?);
        assert_eq!(rt; read, if end < 77 { None } else { Some(whole) });
        let fields = MessageHeader::read(part(&stream, 0, end)?);
        assert_eq!(rt; fields, if end < 48 { None } else { Some(whole) });
    }
    Ok(())
}

#[test]
fn messages_follow_one_another(rt: HostRuntime) -> Result<(), Fail> {
    let stream = stream(rt.alloc())?;
    for end in 77..201usize {
        match MessageHeader::try_read(part(&stream, 77, end)?) {
            Some(second) => assert!(rt; end >= 136 && second.length == 11 && !second.closes()),
            None => assert!(rt; end < 136),
        }
    }
    for end in 136..201usize {
        match MessageHeader::try_read(part(&stream, 136, end)?) {
            Some(closing) => assert!(rt; end >= 184 && closing.closes()),
            None => assert!(rt; end < 184),
        }
    }
    Ok(())
}

#[test]
fn no_length_wraps(rt: HostRuntime) -> Result<(), Fail> {
    for short in 0..101u64 {
        let header = MessageHeader {
            length: u64::MAX - short,
            ..HEADER
        };
        let mut bytes = [0u8; 48];
        header.write_to(&mut bytes)?;
        assert_eq!(rt; MessageHeader::try_read(&bytes), None);
        assert_eq!(rt; MessageHeader::read(&bytes), Some(header));
        assert_eq!(rt; header.required_bytes(), (1u128 << 64) + 47 - short as u128);
    }
    Ok(())
}

#[test]
fn a_header_fills_forty_eight_bytes(rt: HostRuntime) -> Result<(), Fail> {
    let mut short = [7u8; 47];
    assert_eq!(rt; HEADER.write_to(&mut short), Err(Fault::Mismatched));
    assert_eq!(rt; short, [7u8; 47]);
    let mut long = [7u8; 49];
    assert_eq!(rt; HEADER.write_to(&mut long), Err(Fault::Mismatched));
    assert_eq!(rt; long, [7u8; 49]);
    HEADER.write_to(&mut long[1..49])?;
    assert_eq!(rt; long[0], 7);
    assert_eq!(rt; long[8], 5);
    assert_eq!(rt; long[41], 1);
    assert_eq!(rt; long[48], 8);
    Ok(())
}

#[test]
fn a_message_is_as_long_as_its_parts(rt: HostRuntime) {
    let mut bytes = [7u8; 80];
    assert_eq!(rt;
        write_message(&HEADER, &RAY, &mut bytes[0..76]),
        Err(Fault::Mismatched)
    );
    assert_eq!(rt;
        write_message(&HEADER, &RAY, &mut bytes[0..78]),
        Err(Fault::Mismatched)
    );
    assert_eq!(rt;
        write_message(&HEADER, &Block::empty(), &mut bytes[0..48]),
        Err(Fault::PayloadLength)
    );
    assert_eq!(rt; bytes, [7u8; 80]);
    assert_eq!(rt; write_message(&HEADER, &RAY, &mut bytes[0..77]), Ok(()));
    assert_eq!(rt; bytes[76], 77);
    assert_eq!(rt; bytes[77], 7);
}

#[test]
fn a_refusal_prints_itself(rt: HostRuntime) -> Result<(), Fail> {
    let full = format!(in rt.alloc(); "{}", Fault::QueueFull)?;
    assert_eq!(rt; full.as_str(), "the queue of the source is full");
    let torn = format!(in rt.alloc(); "{}", Fault::Torn(77))?;
    assert_eq!(rt;
        torn.as_str(),
        "the stream ended after 77 bytes taken whole, with no closing header"
    );
    Ok(())
}
