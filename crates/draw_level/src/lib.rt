// Levels in tenths of a decibel, and the f32 amplitude of each (SPECIFICATION 6.15).
#![tactic(auto)]

ghost use Rattle.std.specs.Prelude.{◌≡◌, ◌<◌, ◌≤◌, ◌*◌, ◌^◌};
ghost use Rattle.std.specs.Float.Ieee.Nearest.{closest};
ghost use Rattle.draw_level.specs.Levels.{entry_of, amplitude_of, level_of};

use refusals::Refusal;

const HIGHEST_TENTHS: u64 = 2000;

// Tenths in 20 dB: a factor of 10 in amplitude, and the length of the table.
const TENTHS_A_DECADE: u64 = 200;

// A significand of f32 has 24 bits: it is from this to below its double.
const LEAST_SIGNIFICAND: u64 = 0x80_0000;

// An f32 with the exponent field E and the significand q is q * 2^(E - 150), and its bits are (E - 1) * 2^23 + q. An amplitude is
// q * 2^(halvings + decades - 44), so E - 1 is this number more than halvings + decades.
const EXPONENT: u64 = 105;

// 2^30 times 10^(k / 200), rounded down, for k tenths. Written out, as a constant's value may not call a function.
const LEVELS: [u64; 200] = [
    1073741824,
    1086175168,
    1098752484,
    1111475438,
    1124345717,
    1137365026,
    1150535093,
    1163857661,
    1177334498,
    1190967389,
    1204758141,
    1218708583,
    1232820563,
    1247095953,
    1261536643,
    1276144549,
    1290921606,
    1305869774,
    1320991033,
    1336287389,
    1351760867,
    1367413521,
    1383247423,
    1399264673,
    1415467394,
    1431857734,
    1448437866,
    1465209986,
    1482176318,
    1499339110,
    1516700639,
    1534263205,
    1552029135,
    1570000786,
    1588180538,
    1606570802,
    1625174015,
    1643992643,
    1663029181,
    1682286151,
    1701766107,
    1721471630,
    1741405332,
    1761569855,
    1781967873,
    1802602088,
    1823475236,
    1844590085,
    1865949431,
    1887556107,
    1909412977,
    1931522937,
    1953888919,
    1976513886,
    1999400838,
    2022552809,
    2045972866,
    2069664116,
    2093629697,
    2117872786,
    2142396597,
    2167204380,
    2192299424,
    2217685055,
    2243364638,
    2269341576,
    2295619313,
    2322201332,
    2349091156,
    2376292350,
    2403808518,
    2431643309,
    2459800412,
    2488283558,
    2517096524,
    2546243128,
    2575727233,
    2605552749,
    2635723628,
    2666243869,
    2697117518,
    2728348667,
    2759941456,
    2791900072,
    2824228751,
    2856931778,
    2890013489,
    2923478268,
    2957330551,
    2991574825,
    3026215629,
    3061257554,
    3096705246,
    3132563403,
    3168836778,
    3205530178,
    3242648468,
    3280196568,
    3318179454,
    3356602161,
    3395469782,
    3434787469,
    3474560434,
    3514793947,
    3555493343,
    3596664016,
    3638311422,
    3680441083,
    3723058582,
    3766169569,
    3809779757,
    3853894927,
    3898520927,
    3943663672,
    3989329145,
    4035523400,
    4082252558,
    4129522815,
    4177340436,
    4225711758,
    4274643194,
    4324141229,
    4374212425,
    4424863418,
    4476100921,
    4527931727,
    4580362705,
    4633400806,
    4687053059,
    4741326575,
    4796228549,
    4851766258,
    4907947064,
    4964778413,
    5022267837,
    5080422958,
    5139251483,
    5198761211,
    5258960028,
    5319855915,
    5381456944,
    5443771278,
    5506807179,
    5570573000,
    5635077196,
    5700328314,
    5766335005,
    5833106018,
    5900650202,
    5968976511,
    6038094002,
    6108011835,
    6178739279,
    6250285708,
    6322660605,
    6395873564,
    6469934290,
    6544852598,
    6620638419,
    6697301799,
    6774852899,
    6853301998,
    6932659495,
    7012935909,
    7094141879,
    7176288171,
    7259385671,
    7343445396,
    7428478486,
    7514496212,
    7601509978,
    7689531315,
    7778571891,
    7868643508,
    7959758106,
    8051927761,
    8145164690,
    8239481252,
    8334889948,
    8431403425,
    8529034476,
    8627796040,
    8727701210,
    8828763227,
    8930995487,
    9034411540,
    9139025096,
    9244850019,
    9351900337,
    9460190239,
    9569734079,
    9680546377,
    9792641821,
    9906035269,
    10020741751,
    10136776472,
    10254154812,
    10372892328,
    10493004761,
    10614508029,
];

// The table's entry for k tenths.
#[tactic(auto, unfolding(crate::specs::Levels::table, crate::specs::Levels::entry_of))]
fn entry(k: u64) -> u64
    requires { k < 200 }
    ensures { result ≡ entry_of k }
{
    LEVELS[k as usize]
}

// How often w is halved to have 24 digits before the point.
fn halvings(w: u64) -> u64
    requires { (0x80_0000 ≤ w) × (w < 0x10_0000_0000_0000) }
    ensures { (result ≤ 28) × (0x80_0000 * 2 ^ result ≤ w) × (w < 0x100_0000 * 2 ^ result) }
{
    u64::from(w.ilog2()) - 23
}

// a / b to the nearest whole number, a tie to the even one.
#[tactic(auto, using(float_rounding::proofs::Half::closest_down, float_rounding::proofs::Half::closest_up, float_rounding::proofs::Half::closest_tie))]
fn nearest_even(a: u64, b: u64) -> u64
    requires { (0 < b) × (a < 0x4000_0000_0000_0000) }
    ensures { result ≡ closest a b }
{
    let q = a / b;
    let twice = a % b * 2;
    if twice < b {
        q
    } else if twice > b {
        q + 1
    } else {
        q + q % 2
    }
}

// The amplitude of a level. 10^j is 5^j * 2^j and 2,048,000 is 125 * 2^14, so it is entry * 5^j / 125 times a power of two, and
// no number here goes past 64 bits. A significand that is rounded up to 2^24 carries into the exponent, as it should.
fn amplitude(tenths: u64) -> f32
    requires { tenths ≤ 2000 }
    ensures { result ≡ amplitude_of tenths }
{
    let decades = tenths / TENTHS_A_DECADE;
    let scaled = entry(tenths % TENTHS_A_DECADE) * 5u64.pow(decades as u32);
    let e = halvings(scaled / 125);
    let significand = nearest_even(scaled, 125 << e);
    f32::from_bits(((e + decades + EXPONENT) * LEAST_SIGNIFICAND + significand) as u32)
}

// The amplitude of a level in tenths of a decibel, or refusal 13 above 200.0 dB.
#[tactic(auto, unfolding(crate::specs::Levels::level_of))]
pub fn of_tenths(tenths: u64) -> Result<f32, Refusal>
    ensures { result ≡ level_of tenths }
{
    if tenths > HIGHEST_TENTHS {
        return Err(Refusal::Level);
    }
    Ok(amplitude(tenths))
}
