//! Hashes whose values come from other programs: SHA-512 of Python's hashlib, and SipHash-1-3 by its published steps.

use crate::KeyNames;
use std::hash::{BuildHasher, DefaultHasher, Hasher};

fn hash_of(parts: &[&[u8]], name: u8) -> u64 {
    let mut names = KeyNames::new();
    for part in parts {
        names.add(*part);
    }
    names.hash().hash_one(name)
}

#[test]
fn hashes_without_a_key(rt: HostRuntime) {
    assert_eq!(rt; DefaultHasher::new().finish(), 0xd1fb_a762_150c_532c);
}

#[test]
fn hashes_under_the_key_of_names(rt: HostRuntime) {
    let one: &[u8] = b"Noeud_1";
    let other: &[u8] = b"Noeud_2";
    assert_eq!(rt; hash_of(&[], 7), 0x8169_23b0_aad8_57de);
    assert_eq!(rt; hash_of(&[one], 7), 0xafa5_29fd_dc24_f3ff);
    assert_eq!(rt; hash_of(&[one, other], 7), 0x6ece_baa1_caff_10f6);
}

#[test]
fn another_cut_is_another_key(rt: HostRuntime) {
    let one: &[u8] = b"Noeud_1N";
    let other: &[u8] = b"oeud_2";
    assert_eq!(rt; hash_of(&[one, other], 7), 0x00fd_b6a4_599d_18c2);
}

#[test]
fn lengths_of_255_and_more_take_nine_bytes(rt: HostRuntime) {
    assert_eq!(rt; hash_of(&[&[b'x'; 254]], 7), 0x124f_b69b_fe30_4a38);
    assert_eq!(rt; hash_of(&[&[b'x'; 255]], 7), 0xafd5_c0c2_4161_da66);
    assert_eq!(rt; hash_of(&[&[b'x'; 300]], 7), 0xf4c5_81eb_ad57_8179);
}
