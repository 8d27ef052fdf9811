//! Records and values, with the numbers that they have by an independent implementation of SHA-256 and of the layout in
//! docs/POLICY.md, or why they have none.

use lzk_policy_inputs::Value::{self, Number, Own, Tag};

/// The policy of all rows.
pub const POLICY: &[u8] =
    b"record 47\nfield birth date at 4\nfield until date at 8\nfield country text 2 at 12\n\
    field secret bytes 16 at 15\nshow digest\nshow birth at most LATEST\nshow until at least TODAY\n\
    show country as COUNTRY\nshow country one of BE NL\nshow pseudonym of secret for SERVICE\n";

/// Born on 1999-04-11, holds until 2030-12-31, of NL.
pub const HOLLAND: &[u8] =
    b"LZK1\x011\x07\x8b\x015\xc5\xafNL\x01\x00\x01\x02\x03\x04\x05\x06\x07\x08\x09\x0a\x0b\
    \x0c\x0d\x0e\x0fdefghijklmnopqrs";

/// The same of BE.
pub const BELGIUM: &[u8] =
    b"LZK1\x011\x07\x8b\x015\xc5\xafBE\x01\x00\x01\x02\x03\x04\x05\x06\x07\x08\x09\x0a\x0b\
    \x0c\x0d\x0e\x0fdefghijklmnopqrs";

/// The same of DE, which the policy does not list.
pub const GERMANY: &[u8] =
    b"LZK1\x011\x07\x8b\x015\xc5\xafDE\x01\x00\x01\x02\x03\x04\x05\x06\x07\x08\x09\x0a\x0b\
    \x0c\x0d\x0e\x0fdefghijklmnopqrs";

/// A byte too many.
pub const LONG: &[u8] =
    b"LZK1\x011\x07\x8b\x015\xc5\xafNL\x01\x00\x01\x02\x03\x04\x05\x06\x07\x08\x09\x0a\x0b\
    \x0c\x0d\x0e\x0fdefghijklmnopqrs!";

/// The size of the field, which is the number of no element.
const PRIME: u64 = 18_446_744_069_414_584_321;

/// A service's tag.
pub const TAG: [u8; 16] = [
    0, 65, 151, 102, 91, 83, 118, 244, 233, 245, 227, 174, 233, 4, 220, 114,
];

/// Another's.
pub const OTHER_TAG: [u8; 16] = [
    240, 241, 242, 243, 244, 245, 246, 247, 248, 249, 250, 251, 252, 253, 254, 255,
];

/// A record and values with the public numbers: the record's digest, two dates and the country, and the service's tag
/// with the pseudonym behind it.
pub struct Accepted {
    pub record: &'static [u8],
    pub values: [Value; 5],
    pub digest: &'static str,
    pub shown: [u128; 3],
    pub pseudonym: &'static str,
}

const HOLLAND_DIGEST: &str = "e3f95c6ff6ffb48e2c78b7f46343b1f01d40ea42156f2566910b95cc985c47e5";

/// What is shown is true of these; dates that are equal, and the ends of what dates may be, are among them.
pub const ACCEPTED: [Accepted; 3] = [
    Accepted {
        record: HOLLAND,
        values: [Number(20_081_129), Number(20_261_129), Own, Own, Tag(TAG)],
        digest: HOLLAND_DIGEST,
        shown: [20_081_129, 20_261_129, 20_044],
        pseudonym: "004197665b5376f4e9f5e3aee904dc72d8a9d90d965b6d0c18b389f4ef01a73dd734abe2de75fbf1421f59ec180bbd17",
    },
    Accepted {
        record: HOLLAND,
        values: [
            Number(19_990_411),
            Number(20_301_231),
            Number(20_044),
            Own,
            Tag(OTHER_TAG),
        ],
        digest: HOLLAND_DIGEST,
        shown: [19_990_411, 20_301_231, 20_044],
        pseudonym: "f0f1f2f3f4f5f6f7f8f9fafbfcfdfeff3384d3aa109c7f42157ba486203591bcc9fc6676f189231648dab559793e0eea",
    },
    Accepted {
        record: BELGIUM,
        values: [Number(4_294_967_295), Number(0), Own, Own, Tag(TAG)],
        digest: "6cdee36442c3e78da743a31048cf20203c14e5541201300c615645c4bce7a6e5",
        shown: [4_294_967_295, 0, 16_965],
        pseudonym: "004197665b5376f4e9f5e3aee904dc72d8a9d90d965b6d0c18b389f4ef01a73dd734abe2de75fbf1421f59ec180bbd17",
    },
];

/// Changes of a public number of the first accepted row after which no private inputs serve: the digest, dates that
/// are a day too early or too late, another country, another service, another pseudonym.
pub const CHANGED: [(usize, u128); 8] = [
    (0, 1),
    (7, 0),
    (8, 19_990_410),
    (9, 20_310_101),
    (10, 16_965),
    (11, 0),
    (15, 0),
    (22, 4_294_967_296),
];

const UNTRUE_0: &str = "what is shown at 0 is not true";

const UNTRUE_1: &str = "what is shown at 1 is not true";

const UNTRUE_2: &str = "what is shown at 2 is not true";

const UNTRUE_3: &str = "what is shown at 3 is not true";

const OTHER_KIND_0: &str = "value 0 is of another kind";

const OTHER_KIND_1: &str = "value 1 is of another kind";

const OTHER_KIND_2: &str = "value 2 is of another kind";

const OTHER_KIND_3: &str = "value 3 is of another kind";

const OTHER_KIND_4: &str = "value 4 is of another kind";

const OTHER_SIZE: &str = "record has another size";

const OTHER_COUNT: &str = "not as many values as are shown";

/// Rows with no inputs: the record, a value at its place among those of the first accepted row, how many values there
/// are, of which a sixth is the record's own, and what is said. A day too early or too late, another country, values
/// of other kinds; of two faults the first.
pub const REFUSED: [(&[u8], usize, Value, usize, &str); 15] = [
    (HOLLAND, 0, Number(19_990_410), 5, UNTRUE_0),
    (HOLLAND, 0, Number(4_294_967_296), 5, UNTRUE_0),
    (HOLLAND, 1, Number(20_310_101), 5, UNTRUE_1),
    (HOLLAND, 2, Number(16_965), 5, UNTRUE_2),
    (GERMANY, 3, Own, 5, UNTRUE_3),
    (HOLLAND, 0, Own, 5, OTHER_KIND_0),
    (HOLLAND, 1, Number(PRIME), 5, OTHER_KIND_1),
    (HOLLAND, 2, Tag(TAG), 5, OTHER_KIND_2),
    (HOLLAND, 3, Number(20_044), 5, OTHER_KIND_3),
    (GERMANY, 4, Own, 5, UNTRUE_3),
    (HOLLAND, 4, Number(1), 5, OTHER_KIND_4),
    (LONG, 3, Own, 5, OTHER_SIZE),
    (HOLLAND, 3, Own, 4, OTHER_COUNT),
    (LONG, 3, Own, 6, OTHER_SIZE),
    (HOLLAND, 3, Own, 6, OTHER_COUNT),
];

/// How many private inputs the first accepted row has.
pub const PRIVATE_COUNT: usize = 13544;

/// The private inputs of the first accepted row, which are all bits: four in a hexadecimal digit, the first worth most.
pub const PRIVATE: &str = "\
    4c5a4b310131078b0135c5af4e4c01000102030405060708090a0b0c0d0e0f6465666768696a6b6c6d6e6f707172737a46800097964c80\
    653900009094ac804c5a5031000102030405060708090a0b0c0d0e0f004197665b5376f4e9f5e3aee904dc720d8b394f67a0629b8774a4\
    a9a72e320861fe6e78901c9cff75146d2e6997868636d4829ab4c153acf93e2d80000067fb45ba1972a9b4d4385fbee08beebab4e9dc77\
    6e81a996e6825d772f28e2e37d904aa0901b7a5176181a8e3bf678ea1a50c1178588e0a9208f08037bb17a03c2eb40f319942aeee6d91c\
    491e7b927c68986ce713b82133deb2f670c24da16380416b678d1627e9387582e98588374055303eae6fda77a642151d6b858f6730453a\
    25b2658e67982b747b7ac9f2d57f4e6166afcb78cb7d00d52f7fdff94862d37e5ca445ba64fbf481d547308f4c1cbd2c8a56c8725348e3\
    e9ca6b598e2ea07b6f8150496eb93f36cb5e728f35351636f79704b799e4a724fa5c86a15d189dace0322aa239cdce51d9b55e082a37e4\
    19c72a63683df50163f58f2cc1268c56e0a95ddaa8cc3a60075d2655ee3343a999a5f3edc9af0873a3878bf1a63795ed8cd3b8163d9c5c\
    f6cbfa1fe8fa6c6783c4528b44ff528950a672be216cd8c0e602a2f560b8c817af9230f77292356195e596bad7d048becfbbc532b5e622\
    a100afbc3417b0cc7e64c7c64fd8793229ac823515536a6361c94c17e0ea5d82a47aa0a1fc2535476ec7711a515b970899e4013a9373b7\
    881e64d921bd8cd73e836df0d1be73af778544275843e9c0bbea10da55f3f3d11190dca5c18960646dcee760711ddf816705ac804393f5\
    32d362148630c37522239b154487f4e510636d430d8d6d52e449d8bdb1a4a2cf65806799044d52c84b2bfb9cbc6edd8265469db74fc825\
    f4e9f18b2b85c1da4ac0b289ed9466d9eb9a0c908347d51ddbf85ab2281018ef88dd7a95acf6ab38e5a26942dcbe0dee844697b3d1bef3\
    6a08ce0f2b4655d11953e9dd7933123b6553bf17f9c0d2332729513ce2a424504a40efbb63a05ee0c793dbecd589037875a23fe968ef75\
    cd86a40507ad10c8f0492981c882d8312f2ca649d82a7b0cc8f4ab67481ffe4f12b5c21ccc31ccfd1b66b4e21703a70454caa527fa62a6\
    000f6bbdf3bcb6878f6f598fc0271209b8c3de10b3b9806098f4d379b4de7bdd821e6194be1ae3f95c6f7b7fda470b1e2dfd2c68763e11\
    d40ea428ab792b36442e573130b88fca12db327553ef9b7405909955857d951271adefa5a1525b7cd70b9a9fe860525cd6060a814be095\
    5fc89b1ebf3e8de08d7a95e5d2bc47d90ff1583cd0002b1bf52f33ab78a95f581c00a76b85b260546e6551e4cdbec6c3d4fd5bc9f19856\
    42362ae9b66c29b904d8ff996ea109d11001ed2478e62da9b2af0b5f2093b39408ec156d35d4b4ab9e165fab9aceb2cac96d8b6b5c12d4\
    413a553aacd3d2a5545c49b86386f6d79649d1cd55c316683758ec3db120f74ba0373de394f1a60b46928331b9679d59c0e3c842ebe612\
    4862d87e5ca4465a66d68eeab15691d9c79079eb6919c7f4f290dd3dcbac1a4d4428633edab45e73b0240cc91fec5e993f94fc44ac6cb3\
    82a72db8a9ae92c9e02e18e9f93f934f438fa897a53b63cdbda2a76503ba000626aeff95c45542e680882d08891465910409bf50bda45b\
    4460c8c67888394d31475bfbad44a7c054c7ba148291cc2ba76066b355cbca5c76f7997dd3e90c0e9ba8b5d33ef4ba2e7ee4de25ddb58e\
    f0b354f34fd705d72b019f18bf98997e004f8fb4a8a97db3bcc8b9af698d09f6209fa5e102c90f32a5fa1a817bbd611b316f1ce47568e9\
    b491a59adee57e3ed8bafcc79ef80ad0ec4149f35c982c08b2b45fe0478e3ffb91b22dcac35dc012749a2304e3a4b77bbd3f86a8fc93d0\
    93efad3532781d0ae06da6c542ee82cfd0555f4ccb7d2bff03b4949072f27892ba620fde066e2ca27eea2b3962d696b28f4c071ee9a2f7\
    fc193d45903d0556af626490f300f25b4667371a7571f128544b9b9d85f218d1115329c11326bc33513849091d9333249bd0189edaf8bb\
    87a0819571fe08218e678b48362bd24ae0b5c227a26779cd3c84a221a74ed73d1a9c61fbbeda0f5b266e83a90bd057a6171bdc963edd12\
    c4769f38a2e2ee81dae85bc4fd92f2a4cb690470f2511eec6909dbb131df9aa39dca29f7f4b008c0c2ba70a750dc02de5dfbb9cf2a666d\
    77a1a30ca0191805c34b3fbf956cb385644d2de900af3c1125df9014b3eb49b1b20357855dffcb71125a09114dc020adaf3be87686e126\
    cadba7fca9a43132cb1bd8a9d90d4b2db686462ce27d3de034e7ad734abe26f3afdf89087d67b030177a2f";
