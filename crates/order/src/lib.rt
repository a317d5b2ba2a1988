#![tactic(auto)]
// The order of two records and their equality: each answers at the first field that differs.
ghost use Rattle.std.specs.Prelude.{◌≡◌, ◌*◌, ◌+◌, ◌<◌};
ghost use Rattle.record.specs.Table.{bit};
ghost use Rattle.order.specs.Order.{agree, equal_of, later_key, lex, number_order, order_of, ordering_tells};
ghost use Rattle.order.specs.Packed.{Packed};

use record::ResTableConfig;

// How a first record stands to a second.
#[derive(Clone, Copy)]
pub enum Ordering {
    Less,
    Equal,
    Greater,
}

impl Ordering {
    // The order's number: 0 for Less, 1 for Equal, 2 for Greater.
    pub fn number(self) -> u32
        ensures { result ≡ ordering_tells self }
    {
        match self {
            Self::Less => 0,
            Self::Equal => 1,
            Self::Greater => 2,
        }
    }
}

// The order of two numbers that differ.
fn apart(x: u64, y: u64) -> Ordering
    requires { x ≡ y → ⊥ }
    ensures { result ≡ number_order x y }
{
    if x < y {
        Ordering::Less
    } else {
        Ordering::Greater
    }
}

// The order of two words that differ.
fn word_apart(x: u32, y: u32) -> Ordering
    requires { x ≡ y → ⊥ }
    ensures { result ≡ number_order x y }
{
    apart(x as u64, y as u64)
}

// Four bytes as one number, big-endian.
fn big_endian(a: u8, b: u8, c: u8, d: u8) -> u64
    ensures { (result ≡ ((a * 256 + b) * 256 + c) * 256 + d) × ((a < 256) × ((b < 256) × ((c < 256) × (d < 256)))) }
{
    ((a as u64 * 256 + b as u64) * 256 + c as u64) * 256 + d as u64
}

// An array of three bytes as one number, whose order is theirs.
fn three(s: [u8; 3]) -> u64
    ensures { Packed 3 s result }
{
    big_endian(0, s[0], s[1], s[2])
}

// An array of four bytes as one number, whose order is theirs.
fn four(s: [u8; 4]) -> u64
    ensures { Packed 4 s result }
{
    big_endian(s[0], s[1], s[2], s[3])
}

// An array of eight bytes as one number, whose order is theirs.
fn eight(s: [u8; 8]) -> u64
    ensures { Packed 8 s result }
{
    let high = big_endian(s[0], s[1], s[2], s[3]);
    let low = big_endian(s[4], s[5], s[6], s[7]);
    high * 4294967296 + low
}

// `locale_script` as one number, whose order is its bytes'.
fn script(c: ResTableConfig) -> u64
    ensures { Packed 4 c.locale_script result }
{
    let s = c.locale_script;
    four(s)
}

// `locale_variant` as one number, whose order is its bytes'.
fn variant(c: ResTableConfig) -> u64
    ensures { Packed 8 c.locale_variant result }
{
    let s = c.locale_variant;
    eight(s)
}

// `locale_script_was_computed` as one number: no before yes.
fn computed(c: ResTableConfig) -> u64
    ensures { result ≡ bit c.locale_script_was_computed }
{
    c.locale_script_was_computed as u64
}

// `locale_numbering_system` as one number, whose order is its bytes'.
fn numbering_system(c: ResTableConfig) -> u64
    ensures { Packed 8 c.locale_numbering_system result }
{
    let s = c.locale_numbering_system;
    eight(s)
}

// `end_padding` as one number, whose order is its bytes'.
fn padding(c: ResTableConfig) -> u64
    ensures { Packed 3 c.end_padding result }
{
    let s = c.end_padding;
    three(s)
}

// The order of the fields from `locale_script` on.
fn later_order(a: ResTableConfig, b: ResTableConfig) -> Ordering
    ensures { result ≡ lex (later_key a) (later_key b) }
{
    let x = script(a);
    let y = script(b);
    if x != y {
        return apart(x, y);
    }
    let x = variant(a);
    let y = variant(b);
    if x != y {
        return apart(x, y);
    }
    if a.screen_config_2 != b.screen_config_2 {
        return word_apart(a.screen_config_2, b.screen_config_2);
    }
    let x = computed(a);
    let y = computed(b);
    if x != y {
        return apart(x, y);
    }
    let x = numbering_system(a);
    let y = numbering_system(b);
    if x != y {
        return apart(x, y);
    }
    let x = padding(a);
    let y = padding(b);
    if x != y {
        return apart(x, y);
    }
    Ordering::Equal
}

// Whether the fields from `locale_script` on agree.
fn later_agree(a: ResTableConfig, b: ResTableConfig) -> bool
    ensures { result ≡ agree (later_key a) (later_key b) }
{
    let x = script(a);
    let y = script(b);
    if x != y {
        return false;
    }
    let x = variant(a);
    let y = variant(b);
    if x != y {
        return false;
    }
    if a.screen_config_2 != b.screen_config_2 {
        return false;
    }
    let x = computed(a);
    let y = computed(b);
    if x != y {
        return false;
    }
    let x = numbering_system(a);
    let y = numbering_system(b);
    if x != y {
        return false;
    }
    padding(a) == padding(b)
}

// The order of two records: the fourteen fields after size, in table order.
pub fn cmp(a: ResTableConfig, b: ResTableConfig) -> Ordering
    ensures { result ≡ order_of a b }
{
    if a.imsi != b.imsi {
        return word_apart(a.imsi, b.imsi);
    }
    if a.locale != b.locale {
        return word_apart(a.locale, b.locale);
    }
    if a.screen_type != b.screen_type {
        return word_apart(a.screen_type, b.screen_type);
    }
    if a.generic_purpose_field != b.generic_purpose_field {
        return word_apart(a.generic_purpose_field, b.generic_purpose_field);
    }
    if a.screen_size != b.screen_size {
        return word_apart(a.screen_size, b.screen_size);
    }
    if a.version != b.version {
        return word_apart(a.version, b.version);
    }
    if a.screen_config != b.screen_config {
        return word_apart(a.screen_config, b.screen_config);
    }
    if a.screen_size_dp != b.screen_size_dp {
        return word_apart(a.screen_size_dp, b.screen_size_dp);
    }
    later_order(a, b)
}

// Whether the fourteen fields after size agree.
pub fn eq(a: ResTableConfig, b: ResTableConfig) -> bool
    ensures { result ≡ equal_of a b }
{
    if a.imsi != b.imsi {
        return false;
    }
    if a.locale != b.locale {
        return false;
    }
    if a.screen_type != b.screen_type {
        return false;
    }
    if a.generic_purpose_field != b.generic_purpose_field {
        return false;
    }
    if a.screen_size != b.screen_size {
        return false;
    }
    if a.version != b.version {
        return false;
    }
    if a.screen_config != b.screen_config {
        return false;
    }
    if a.screen_size_dp != b.screen_size_dp {
        return false;
    }
    later_agree(a, b)
}
