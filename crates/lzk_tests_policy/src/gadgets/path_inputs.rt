//! Nodes, and the private inputs of a path of one level, made by an independent implementation of SHA-256.

/// The digest of "record".
pub const LEAF: &str = "70ce871f8a3d3fb449bc3c3ace6547cef02dfc74ffe48d912532a724bfdbe5b9";

/// The digests of "sibling 0" to "sibling 2".
pub const SIBLINGS: [&str; 3] = [
    "f59e1a9a0b5b4e6ebdcaafa66df2981ad9eb8ec1cdc1ec336559dab8947dc27b",
    "5de4d950a6b2113fb869b5da895d0eaf7d7d67f52fa723bfbf55c8bf05df96ae",
    "8e255b7980df97cdf21b2a2d10b99df2d10033ed650c49e7ba8ac06af16ad55b",
];

/// The root of one level above leaf 1.
pub const LOW_ROOT: &str = "894fc27a35a609fbb28821a99c4f4559cb4b675c6f954b4c5ab02cf1a5317d44";

/// The root of three levels above leaf 5.
pub const ROOT: &str = "f310ccf015ad7aa24c9cf3e67eeacd0dcb4409d47362374f60ba16b08c16b0db";

/// The second half of the padded block of a record whose first half is the leaf.
pub const RECORD_HALF: &str = "69732069737375656420746f206120686f6c6465722e2e8000000000000001b8";

/// The record's digest.
pub const RECORD_DIGEST: &str = "c5faa88058e763af75252fe60a6485a6b828ede78e4dc9175fc820b879fa81b5";

/// The node above these halves, which is another.
pub const RECORD_NODE: &str = "3dd351bcb55d35b064e5da3be25d86199fe3a2017e4fff2fa35f5419cd61cd9e";

/// How many private inputs one level has.
pub const PRIVATE_COUNT: usize = 6889;

/// The private inputs of one level above leaf 1, which are all bits: four in a hexadecimal digit, the first worth most.
pub const PRIVATE: &str = "\
    f59e1a9a0b5b4e6ebdcaafa66df2981ad9eb8ec1cdc1ec336559dab8947dc27b70ce871f8a3d3fb449bc3c3ace6547cef02dfc74ffe4\
    8d912532a724bfdbe5b9cb20c935ba90e32e093782727e92056cc506f39a9ac1766a42e9b5762e3cfe94de7f1bb5bae453c7efcd49e5\
    9c60856c49d10ee966d583a0a6e6255d19fada122eed80d75c6459a02a4eff69d46933903b8b2a97528331d98a5ea996a36747354172\
    a0315e5312369c4ca656d1c9730945f7b3a54d919cd4df0fe55e6b2623c9234b49556a5a2796f6b909382c3240750e2773277aea24e9\
    157e4efc1faf28be2cf2a5229acdf9ddf210aeb9ab45ad53458ef66c076b1a5515aa977efe9c89b05269c0a91153aab4b4d7baa95169\
    34fa3986fd97874b0af5c4c13ac6f01f9098efd31b6a800c63c7d9fbb07630e2565f2b481b3e8b963b74e19c1c2af8f717ae5209bba3\
    43e04bb41763bf4cf8b17412b7258a9cd562cf0c87261716dbc7e2fc4cad0655818ace8b091604b6662b11121158c9cd199cf1578347\
    2aca7d56e98a55071473422c6130703afa06fdd55459a2dd86cff905e2010afd5c44b629430ea5d89b50dcfc08004c9a2d9d9be3cf9d\
    5ee62bdb19e9ee86c34b15910e10f0b1c4b368e4a750aa0ef094ef7ddfe968f82212c3f7ec5715fe99c8c52fc6ed76ef973435ec0f89\
    54e5dba272e517784810c4a82123ba9e27d5494d05cf505c9825767a540cd0b45a891db83329edfec8e5e5c79a2dc37fdae35f27a63a\
    009537e5d6a1f44ce0de6c7c2b976ad90452ffc3e49f23458608b69c1d0421058e7b6819d413cee062c8f9f4fe28dbafc95b1ac46add\
    58b325e2621b5df3dcca2bde3d1790414d58ce910793292588640fa8c2236b1d18db5db9e0fa7ac907539f372d9ae1dc848c5d23de71\
    cc5a97c1f5fc02408b3411edb057da3b4e356f44b9bce3b12c98f40be36b146ef6883bcf465c186d4b6425da2d57d75a14ec4b53b8e4\
    d9a5991fa0b0a5532dc9b36a747fda25cf96b9ec19603e3213486400cfa73f2cf142f5211319130170ca8bd539d8f049ba546c501ab4\
    e72e406a287ab30cf2c406c90b6127031ad4c9e440c68aeb57fa34207ce0209828a23f527552a076103e6372da05042e8924bd6da752\
    8ff949a7a3073d363b790944744f2e2d70adc4a7e13d4d69827ef651043529c4f4559e5a5b3ae5be552d30b56059e3a5317d448";
