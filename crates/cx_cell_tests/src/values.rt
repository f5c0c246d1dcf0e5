//! Operators on values, as Python computed them with its unbounded integers.

ghost use Rattle.std.specs.Prelude.{◌≡◌};

use cx_bits::Bits;
use std::test::Fail;

/// Width, the two operands, and what the operators give, in the order of `results`.
const OPERATORS: [(u8, u128, u128, [u128; 14]); 14] = [
    (1, 0, 1, [1, 1, 0, 0, 0, 0, 1, 1, 1, 0, 0, 1, 0, 0]),
    (1, 1, 0, [1, 1, 0, 1, 1, 0, 1, 1, 0, 1, 1, 0, 1, 0]),
    (1, 1, 1, [0, 0, 1, 1, 0, 1, 1, 0, 0, 0, 0, 0, 0, 1]),
    (
        64,
        0x97b1165f0971b7c4,
        0x689e289d42f8eda1,
        [
            0x4f3efc4c6aa565,
            0x2f12edc1c678ca23,
            0x1f01d841c5850644,
            1,
            0x2f12edc1c678ca23,
            0x90001d0070a580,
            0xffbf3edf4bf9ffe5,
            0xff2f3ec24b895a65,
            0x684ee9a0f68e483b,
            0,
            0,
            0,
            1,
            0,
        ],
    ),
    (
        64,
        0x8a8318174d645fa6,
        63,
        [
            0x8a8318174d645fe5,
            0x8a8318174d645f67,
            0x1642edbc0bb389da,
            0x232d7bf5aa011c5,
            43,
            38,
            0x8a8318174d645fbf,
            0x8a8318174d645f99,
            0x757ce7e8b29ba059,
            0,
            1,
            0,
            1,
            0,
        ],
    ),
    (
        64,
        0x25abd89bd67e4d92,
        64,
        [
            0x25abd89bd67e4dd2,
            0x25abd89bd67e4d52,
            0x6af626f59f936480,
            0x96af626f59f936,
            18,
            0,
            0x25abd89bd67e4dd2,
            0x25abd89bd67e4dd2,
            0xda5427642981b26d,
            0,
            0,
            0,
            0,
            0,
        ],
    ),
    (
        65,
        0x148a7c8252abc5619,
        0xf3e452f23cbb7daa,
        [
            0x3c8c1b176777d3c3,
            0x54c37532ee00d86f,
            0x13830cfef175e619a,
            1,
            0x54c37532ee00d86f,
            0x40a4402028b85408,
            0x1fbe7daf73ebf7fbb,
            0x1bb439ad716072bb3,
            0xb75837dad543a9e6,
            0,
            0,
            0,
            1,
            0,
        ],
    ),
    (
        65,
        0x1449e78e4f15ce760,
        64,
        [
            0x1449e78e4f15ce7a0,
            0x1449e78e4f15ce720,
            0x1279e393c5739d800,
            0x51279e393c5739d,
            32,
            64,
            0x1449e78e4f15ce760,
            0x1449e78e4f15ce720,
            0xbb61871b0ea3189f,
            0,
            1,
            0,
            1,
            0,
        ],
    ),
    (
        65,
        0xcbc16f01162794bf,
        65,
        [
            0xcbc16f0116279500,
            0xcbc16f011627947e,
            0x1bc1d2f46a00cc47f,
            0x3227bccd1144d1e,
            33,
            1,
            0xcbc16f01162794ff,
            0xcbc16f01162794fe,
            0x1343e90fee9d86b40,
            0,
            0,
            0,
            0,
            0,
        ],
    ),
    (
        128,
        0xffffffffffffffffffffffffffffffff,
        0xffffffffffffffffffffffffffffffff,
        [
            0xfffffffffffffffffffffffffffffffe,
            0,
            1,
            1,
            0,
            0xffffffffffffffffffffffffffffffff,
            0xffffffffffffffffffffffffffffffff,
            0,
            0,
            0,
            0,
            0,
            0,
            1,
        ],
    ),
    (
        128,
        0xead50263f4d6d23508bd9d9676e9c809,
        0x14e69a0343a2c9fbed3e91c29ec148c,
        [
            0xec236c042910fed4c79186b2a0d5dc95,
            0xe98698c3c09ca59549e9b47a4cfdb37d,
            0xac0d4e9c3d4104274dd0121d24c618ec,
            179,
            0x101275f70299e829a919ee526d76a25,
            0x440020341200150891891420e80008,
            0xebdf6be3f4fefebfbefffd9e7feddc8d,
            0xeb9b6bc3c0ecfeaab66e748a5f05dc85,
            0x152afd9c0b292dcaf7426269891637f6,
            0,
            0,
            0,
            1,
            0,
        ],
    ),
    (
        128,
        0xa63cf5f9bdcdc219fe72c33b959575fe,
        0,
        [
            0xa63cf5f9bdcdc219fe72c33b959575fe,
            0xa63cf5f9bdcdc219fe72c33b959575fe,
            0,
            0xffffffffffffffffffffffffffffffff,
            0xa63cf5f9bdcdc219fe72c33b959575fe,
            0,
            0xa63cf5f9bdcdc219fe72c33b959575fe,
            0xa63cf5f9bdcdc219fe72c33b959575fe,
            0x59c30a0642323de6018d3cc46a6a8a01,
            0xa63cf5f9bdcdc219fe72c33b959575fe,
            0xa63cf5f9bdcdc219fe72c33b959575fe,
            0,
            1,
            0,
        ],
    ),
    (
        128,
        0xb6ab9f1ab79db4df2694e1f77d791a3c,
        127,
        [
            0xb6ab9f1ab79db4df2694e1f77d791abb,
            0xb6ab9f1ab79db4df2694e1f77d7919bd,
            0x9f23ee41173cbab423dc19c73f1403c4,
            0x17037ad90905c220251cd5eac539967,
            35,
            60,
            0xb6ab9f1ab79db4df2694e1f77d791a7f,
            0xb6ab9f1ab79db4df2694e1f77d791a43,
            0x495460e548624b20d96b1e088286e5c3,
            0,
            1,
            0,
            1,
            0,
        ],
    ),
    (
        128,
        0xdfafe390727d4dad921bf95cc9ff851,
        128,
        [
            0xdfafe390727d4dad921bf95cc9ff8d1,
            0xdfafe390727d4dad921bf95cc9ff7d1,
            0xfd7f1c8393ea6d6c90dfcae64ffc2880,
            0x1bf5fc720e4fa9b5b2437f2b993ff0,
            81,
            0,
            0xdfafe390727d4dad921bf95cc9ff8d1,
            0xdfafe390727d4dad921bf95cc9ff8d1,
            0xf20501c6f8d82b2526de406a336007ae,
            0,
            0,
            0,
            0,
            0,
        ],
    ),
];

/// What every operator on two values of one width gives.
fn results(left: Bits, right: Bits) -> [u128; 14]
    requires { left.width ≡ right.width }
{
    let (quotient, remainder) = left.div_rem(right);
    [
        left.add(right).value(),
        left.sub(right).value(),
        left.mul(right).value(),
        quotient.value(),
        remainder.value(),
        left.and(right).value(),
        left.or(right).value(),
        left.xor(right).value(),
        left.not().value(),
        left.shl(right).value(),
        left.shr(right).value(),
        left.lt(right).value(),
        left.signed_lt(right).value(),
        left.eq(right).value(),
    ]
}

#[test]
fn operators(rt: HostRuntime) -> Result<(), Fail> {
    for (width, left, right, want) in OPERATORS {
        let left = Bits::new(width, left).ok_or("left operand")?;
        let right = Bits::new(width, right).ok_or("right operand")?;
        assert_eq!(rt; results(left, right), want, "{left:?} {right:?}");
    }
    Ok(())
}

#[test]
fn widths(rt: HostRuntime) -> Result<(), Fail> {
    let lows: [(u8, u128, u8, u128); 6] = [
        (1, 1, 1, 1),
        (64, 0x93afd954e14c1d7e, 1, 0),
        (65, 0x1a562d07cbc2c8e3e, 64, 0xa562d07cbc2c8e3e),
        (
            128,
            0x84488709ef4d6ee6dda4dd1e72488b81,
            65,
            0xdda4dd1e72488b81,
        ),
        (
            128,
            0xc630de19bf77d38d8b9b7cefad989a70,
            127,
            0x4630de19bf77d38d8b9b7cefad989a70,
        ),
        (
            128,
            0x86ad910108d213b7b25a55f4796ce0e9,
            128,
            0x86ad910108d213b7b25a55f4796ce0e9,
        ),
    ];
    for (width, value, low, want) in lows {
        let bits = Bits::new(width, value).ok_or("value")?;
        assert!(rt; 1 <= low && low <= bits.width());
        assert_eq!(rt; Some(bits.low(low)), Bits::new(low, want), "{bits:?} {low}");
    }
    let pads: [(u8, u128, u8, u128); 4] = [
        (1, 1, 1, 1),
        (1, 1, 128, 1),
        (64, 0xf9c919c108050a4e, 65, 0xf9c919c108050a4e),
        (
            128,
            0xffffffffffffffffffffffffffffffff,
            128,
            0xffffffffffffffffffffffffffffffff,
        ),
    ];
    for (width, value, wide, want) in pads {
        let bits = Bits::new(width, value).ok_or("value")?;
        assert!(rt; bits.width() <= wide && wide <= 128);
        assert_eq!(rt;
            Some(bits.pad(wide)),
            Bits::new(wide, want),
            "{bits:?} {wide}"
        );
    }
    let pairs: [(u8, u128, u8, u128, u128); 5] = [
        (1, 1, 1, 0, 2),
        (
            64,
            0x3dbf2458c92830e1,
            64,
            0x82e2e271c93de18f,
            0x3dbf2458c92830e182e2e271c93de18f,
        ),
        (
            63,
            0x313f3ce32b420dd8,
            65,
            0x14087c813f045f6e0,
            0x627e79c656841bb14087c813f045f6e0,
        ),
        (1, 1, 127, 0, 0x80000000000000000000000000000000),
        (
            127,
            0x7fffffffffffffffffffffffffffffff,
            1,
            1,
            0xffffffffffffffffffffffffffffffff,
        ),
    ];
    for (high_width, high, low_width, low, want) in pairs {
        let high = Bits::new(high_width, high).ok_or("high")?;
        let low = Bits::new(low_width, low).ok_or("low")?;
        assert!(rt; low.width() <= 128 - high.width());
        let whole = Bits::new(high.width() + low.width(), want);
        assert_eq!(rt; Some(high.cat(low)), whole, "{high:?} {low:?}");
    }
    Ok(())
}
