//! Files that runs read.

use crate::policy::rows::{HOLLAND, POLICY};

/// Values with which all that is shown is true of the record.
pub const VALUES: &[u8] = b"# chosen\nTODAY 20261129 # now\nCOUNTRY NL\n\n\
    SERVICE 004197665b5376f4e9f5e3aee904dc72\nLATEST 20081129\n";

/// The public inputs for them: the words of the digest, two dates, the country, the words of the service's tag, and
/// those of the pseudonym.
pub const PUBLIC: &[u8] =
    b"3824770159\n4143953038\n746108916\n1665380848\n490793538\n359605606\n2433455564\n\
    2556184549\n20081129\n20261129\n20044\n4298598\n1532196596\n3925205934\n3909409906\n3635009805\n2522574092\n\
    414419444\n4009862973\n3610553314\n3732274161\n1109350892\n403422487\n";

/// The SHA-256 digest of the file of private inputs.
pub const PRIVATE_DIGEST: &str = "8585bb47bde17986bb66153a8fdf2dc7ae9511b0e9f2c9c8bd79ffb03dd84ef3";

/// The same policy with a root three levels above the digest in its place.
pub const UNDER: &[u8] = b"record 47\nfield birth date at 4\nfield until date at 8\n\
    field country text 2 at 12\nfield secret bytes 16 at 15\nshow under root 3\nshow birth at most LATEST\n\
    show until at least TODAY\nshow country as COUNTRY\nshow country one of BE NL\n\
    show pseudonym of secret for SERVICE\n";

/// The record is leaf 5; beside its path stand the digests of "sibling 0", "sibling 1" and "sibling 2".
pub const PATH: &[u8] =
    b"# from an issuer\n5\n\nf59e1a9a0b5b4e6ebdcaafa66df2981ad9eb8ec1cdc1ec336559dab8947dc27b # low\n\
    \t5de4d950a6b2113fb869b5da895d0eaf7d7d67f52fa723bfbf55c8bf05df96ae\n\
    8E255B7980DF97CDF21B2A2D10B99DF2D10033ED650C49E7BA8AC06AF16AD55B";

/// The public inputs under the root: its words, and the same numbers behind them.
pub const ROOT_PUBLIC: &[u8] =
    b"1257166307\n2906903105\n2954760325\n373529483\n2446289664\n2332730431\n983464652\n\
    692397526\n20081129\n20261129\n20044\n4298598\n1532196596\n3925205934\n3909409906\n3635009805\n2522574092\n\
    414419444\n4009862973\n3610553314\n3732274161\n1109350892\n403422487\n";

/// The SHA-256 digest of the file of private inputs under the root.
pub const ROOT_PRIVATE_DIGEST: &str =
    "7d54f6377ff7b760fe792f1e56f41ab6189f1c75abb1d97b763d55fa77eec290";

/// What the file of random bytes has.
pub const RANDOM: [u8; 40] = *b"a seed of thirty-two bytes, 1234and more";

/// What is shown of the record, with its pseudonym for the service.
pub const SHOWN: &[u8] =
    b"# from a wallet\ndigest E3F95C6FF6FFB48E2C78B7F46343B1F01D40EA42156F2566910B95CC985C47E5\n\
    pseudonym d8a9d90d965b6d0c18b389f4ef01a73dd734abe2de75fbf1421f59ec180bbd17 # here\n\
    # chosen\nTODAY 20261129 # now\nCOUNTRY NL\n\nSERVICE 004197665b5376f4e9f5e3aee904dc72\nLATEST 20081129\n";

/// The same under the root.
pub const ROOT_SHOWN: &[u8] =
    b"root 4aeed5e3ad43d241b01e108516439b8b91cf6b008b0aa43f3a9e7acc294525d6\n\
    pseudonym d8a9d90d965b6d0c18b389f4ef01a73dd734abe2de75fbf1421f59ec180bbd17\n\
    TODAY 20261129\nCOUNTRY NL\nSERVICE 004197665b5376f4e9f5e3aee904dc72\nLATEST 20081129\n";

// The country is left out.
const SHOWN_OWN: &[u8] =
    b"digest e3f95c6ff6ffb48e2c78b7f46343b1f01d40ea42156f2566910b95cc985c47e5\n\
    pseudonym d8a9d90d965b6d0c18b389f4ef01a73dd734abe2de75fbf1421f59ec180bbd17\n\
    TODAY 20261129\nSERVICE 004197665b5376f4e9f5e3aee904dc72\nLATEST 20081129\n";

// A second pseudonym, and so a line of values that nothing asks for.
const SHOWN_UNKNOWN: &[u8] =
    b"digest e3f95c6ff6ffb48e2c78b7f46343b1f01d40ea42156f2566910b95cc985c47e5\n\
    pseudonym d8a9d90d965b6d0c18b389f4ef01a73dd734abe2de75fbf1421f59ec180bbd17\npseudonym 20261129\n";

// The digest of another record: one digit differs.
const SHOWN_OTHER: &[u8] =
    b"digest f3f95c6ff6ffb48e2c78b7f46343b1f01d40ea42156f2566910b95cc985c47e5\n\
    pseudonym d8a9d90d965b6d0c18b389f4ef01a73dd734abe2de75fbf1421f59ec180bbd17\n\
    TODAY 20261129\nCOUNTRY NL\nSERVICE 004197665b5376f4e9f5e3aee904dc72\nLATEST 20081129\n";

// Two pseudonyms for the policy of nine hashes.
const SHOWN_TWO: &[u8] = b"root 4aeed5e3ad43d241b01e108516439b8b91cf6b008b0aa43f3a9e7acc294525d6\n\
    pseudonym d8a9d90d965b6d0c18b389f4ef01a73dd734abe2de75fbf1421f59ec180bbd17\n\
    pseudonym d8a9d90d965b6d0c18b389f4ef01a73dd734abe2de75fbf1421f59ec180bbd17\n\
    S 004197665b5376f4e9f5e3aee904dc72\nT 004197665b5376f4e9f5e3aee904dc72\n";

// Six levels, a pseudonym and the record: eight hashes, and no more have room.
const EIGHT: &[u8] =
    b"record 55\nfield b bytes 35 at 20\nshow under root 6\nshow pseudonym of b for S\n";

const NINE: &[u8] =
    b"record 1\nfield b bytes 1 at 0\nshow under root 6\nshow pseudonym of b for S\n\
    show pseudonym of b for T\n";

const NODE: &[u8] = b"f59e1a9a0b5b4e6ebdcaafa66df2981ad9eb8ec1cdc1ec336559dab8947dc27b";

/// A policy that shows a pseudonym of a sealed secret.
pub const SEALED: &[u8] = b"record 48\nfield owner sealed at 16\nshow digest\n\
    show pseudonym of owner for SERVICE\n";

const SEALED_UNDER: &[u8] = b"record 48\nfield owner sealed at 16\nshow under root 3\n\
    show pseudonym of owner for SERVICE\n";

/// Its record: a salt, and the digest of `LZS1` and the secret.
pub const SEALED_RECORD: &[u8] = b"0123456789abcdef\xa4#>Z\xa8+4,\xef\x05\x04U-\xad\xee\xca\
    \x80\xbe\x0b\xebQ\xfd\xdf\x87\xb9\xf8}\x1c\xa0\xd7Y\xce";

const SECRET: &[u8] = b"a secret of mine";

/// The public inputs: the words of the digest, those of the service's tag, and those of the pseudonym.
pub const SEALED_PUBLIC: &[u8] =
    b"2394987341\n3319777060\n1603223359\n3598733090\n2700716532\n1089238455\n\
    508864487\n4173273822\n4298598\n1532196596\n3925205934\n3909409906\n1370343273\n3793253877\n1618536891\n\
    1824649265\n3332627129\n2233121298\n3589041661\n2440448773\n";

/// The same under a root, as leaf 5 of the path above.
pub const SEALED_ROOT_PUBLIC: &[u8] =
    b"3367015720\n1433192127\n1404492700\n1231223155\n2731272732\n1167630385\n\
    1457961655\n1933116305\n4298598\n1532196596\n3925205934\n3909409906\n1370343273\n3793253877\n1618536891\n\
    1824649265\n3332627129\n2233121298\n3589041661\n2440448773\n";

/// The SHA-256 digests of the files of private inputs.
pub const SEALED_PRIVATE_DIGEST: &str =
    "8c176f6f5b65923f67952f25f122ecb2633125019cdb39f9d5dbdff24de77f1c";

pub const SEALED_ROOT_PRIVATE_DIGEST: &str =
    "a637ffff7d39f4ea3d66854bb0f94599f60fc3e6aa7fffe4c66c6349363dc526";

/// What is shown of the sealed record, with its pseudonym.
const SEALED_SHOWN: &[u8] =
    b"digest 8ec09b4dc5dfc7245f8f3f3fd6804f22a0f9a9f440ec75b71e54a7e7f8bf1ade\n\
    pseudonym 51adc769e21875f56078e9bb6cc1f031c6a3dab9851aba12d5ec6dfd91764b05\n\
    SERVICE 004197665b5376f4e9f5e3aee904dc72\n";

/// The same under the root.
const SEALED_ROOT_SHOWN: &[u8] =
    b"root c8b09528556cc6bf53b6db9c4962f973a2cbea1c4598a03156e6bab773390391\n\
    pseudonym 51adc769e21875f56078e9bb6cc1f031c6a3dab9851aba12d5ec6dfd91764b05\n\
    SERVICE 004197665b5376f4e9f5e3aee904dc72\n";

/// All files, by their names.
pub const FILES: [(&str, &[u8]); 61] = [
    ("s", SEALED),
    ("s_under", SEALED_UNDER),
    (
        "s_four",
        b"record 48\nfield owner sealed at 16\nshow under root 3\n\
        show pseudonym of owner for A\nshow pseudonym of owner for B\nshow pseudonym of owner for C\n",
    ),
    (
        "s_eight",
        b"record 55\nfield b bytes 23 at 0\nfield owner sealed at 23\nshow digest\n\
        show pseudonym of owner for A\nshow pseudonym of owner for B\nshow pseudonym of owner for C\n\
        show pseudonym of b for D\n",
    ),
    (
        "s_deep",
        b"record 55\nfield owner sealed at 23\nshow under root 5\nshow pseudonym of owner for A\n",
    ),
    ("sr", SEALED_RECORD),
    ("sv", b"SERVICE 004197665b5376f4e9f5e3aee904dc72\n"),
    ("sv_tag", b"SERVICE 0041\n"),
    ("sk", SECRET),
    ("sk_short", b"a secret of min"),
    ("sk_long", b"a secret of mine!"),
    ("sk_other", b"a secret of hers"),
    ("/dev/urandom", &RANDOM),
    ("told", SHOWN),
    ("told_root", ROOT_SHOWN),
    ("told_none", b" # nothing\n\n"),
    ("told_word", b"digest\n"),
    ("told_digits", b"digest e3f95c6f\n"),
    (
        "told_values",
        b"digest e3f95c6ff6ffb48e2c78b7f46343b1f01d40ea42156f2566910b95cc985c47e5\n\nLATEST 20081129\n",
    ),
    (
        "told_pseudonym",
        b"digest e3f95c6ff6ffb48e2c78b7f46343b1f01d40ea42156f2566910b95cc985c47e5\npseudonym x\n",
    ),
    (
        "told_head",
        b"digest e3f95c6ff6ffb48e2c78b7f46343b1f01d40ea42156f2566910b95cc985c47e5\n",
    ),
    ("told_own", SHOWN_OWN),
    ("told_unknown", SHOWN_UNKNOWN),
    ("told_other", SHOWN_OTHER),
    ("told_two", SHOWN_TWO),
    ("told_sealed", SEALED_SHOWN),
    ("told_sealed_root", SEALED_ROOT_SHOWN),
    ("e", b""),
    ("u_eight", EIGHT),
    ("u_nine", NINE),
    ("p", POLICY),
    ("r", HOLLAND),
    ("v", VALUES),
    ("u", UNDER),
    ("t", PATH),
    ("t_none", b"# nothing\n"),
    ("t_two_words", b"5 6\n"),
    ("t_leaf", b"\n64\n"),
    ("t_hex", b"a\n"),
    (
        "t_node",
        b"5\nf59e1a9a0b5b4e6ebdcaafa66df2981ad9eb8ec1cdc1ec336559dab8947dc2\n",
    ),
    ("t_few", b"0\n"),
    ("t_name", NODE),
    (
        "t_two",
        b"1\nf59e1a9a0b5b4e6ebdcaafa66df2981ad9eb8ec1cdc1ec336559dab8947dc27b\n\
        5de4d950a6b2113fb869b5da895d0eaf7d7d67f52fa723bfbf55c8bf05df96ae\n",
    ),
    (
        "t_row",
        b"8\nf59e1a9a0b5b4e6ebdcaafa66df2981ad9eb8ec1cdc1ec336559dab8947dc27b\n\
        5de4d950a6b2113fb869b5da895d0eaf7d7d67f52fa723bfbf55c8bf05df96ae\n\
        8e255b7980df97cdf21b2a2d10b99df2d10033ed650c49e7ba8ac06af16ad55b\n",
    ),
    ("p_place", b"record 47\nfield b date at 45\n"),
    (
        "p_bytes",
        b"record 9\nfield \xc3\xa9\\a text 2 at 0\nshow digest\nshow \xc3\xa9\\a one of \xc3\xa9 NL\n",
    ),
    ("r_short", b"LZK1"),
    (
        "r_long",
        b"012345678901234567890123456789012345678901234567",
    ),
    ("v_syntax", b"LATEST\n"),
    ("v_unknown", b"LATEST 1\nBIRTH 2\n"),
    ("v_repeated", b"LATEST 1\nTODAY 2\nLATEST 1\n"),
    ("v_date", b"LATEST 2008-11-29\n"),
    ("v_digits", b"LATEST 12345678901\n"),
    ("v_missing", b"LATEST 20081129\n"),
    ("v_text", b"LATEST 20081129\nTODAY 20261129\nCOUNTRY NLX\n"),
    ("v_tag", b"LATEST 20081129\nTODAY 20261129\nSERVICE 00\n"),
    (
        "v_own",
        b"LATEST 20081129\nTODAY 20261129\nSERVICE 004197665b5376f4e9f5e3aee904dc72\n",
    ),
    (
        "v_other",
        b"LATEST 20081129\nTODAY 20261129\nCOUNTRY BE\nSERVICE 004197665b5376f4e9f5e3aee904dc72\n",
    ),
    (
        "v_young",
        b"LATEST 19990410\nTODAY 20261129\nSERVICE 004197665b5376f4e9f5e3aee904dc72\n",
    ),
    (
        "v_far",
        b"LATEST 4294967296\nTODAY 20261129\nSERVICE 004197665b5376f4e9f5e3aee904dc72\n",
    ),
    (
        "v_expired",
        b"LATEST 20081129\nTODAY 20310101\nSERVICE 004197665b5376f4e9f5e3aee904dc72\n",
    ),
];
