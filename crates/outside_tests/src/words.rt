use prog_network::{read_address, read_guid};
use pva_outside::Peer;

/// The address A.B.C.D as IPv6 maps it.
fn mapped(a: u8, b: u8, c: u8, d: u8, port: u16) -> Peer {
    Peer {
        address: [0, 0, 0, 0, 0, 0, 0, 0, 0, 0, 0xFF, 0xFF, a, b, c, d],
        port,
    }
}

#[test]
fn addresses_are_read(rt: HostRuntime) {
    assert_eq!(rt;
        read_address("127.0.0.1:5075"),
        Some(mapped(127, 0, 0, 1, 5075))
    );
    assert_eq!(rt; read_address("0.0.0.0:0"), Some(mapped(0, 0, 0, 0, 0)));
    assert_eq!(rt;
        read_address("255.255.255.255:65535"),
        Some(mapped(255, 255, 255, 255, 65535))
    );
}

#[test]
fn other_texts_are_no_addresses(rt: HostRuntime) {
    static TEXTS: [&str; 10] = [
        "",
        "127.0.0.1",
        "127.0.0.1:",
        "127.0.0:5075",
        "127.0.0.0.1:5075",
        "127.0.0.256:5075",
        "127.0.0.1:65536",
        "127.0.0.01:5075",
        "127.0.0.1:+5075",
        "localhost:5075",
    ];
    for text in TEXTS {
        assert!(rt; read_address(text).is_none());
    }
}

#[test]
fn guids_are_read(rt: HostRuntime) {
    assert_eq!(rt;
        read_guid("000102030405060708090aFf"),
        Some([0, 1, 2, 3, 4, 5, 6, 7, 8, 9, 0x0A, 0xFF])
    );
    assert!(rt; read_guid("000102030405060708090a").is_none());
    assert!(rt; read_guid("000102030405060708090a0g").is_none());
}
