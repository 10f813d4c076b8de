// Base elements: numbers modulo p = 2^64 - 2^32 + 1. Every operation takes any 64-bit content and answers below p; its contract is one
// equation, to its definition in specs/Elements.antt. The one that is handed an inverse requires that it is the right one.
#![tactic(auto)]

ghost use Rattle.std.specs.Prelude.{◌≡◌, ◌+◌, ◌*◌, ◌/◌, ◌%◌, ◌^◌, ◌<◌};
ghost use Rattle.field.specs.Elements.{p, add_f, sub_f, neg_f, mul_f, pow_f, inv_f, is_zero_f, equal_f, equal_f_equivalence};
ghost use Rattle.std.specs.Cmp.{on_equiv, partial_equiv_from_equiv};

use std::ops::{Add, Mul, Neg, Sub};

const TWO_POW_32: u64 = 4294967296;

// The inverses of 0 to 255, 0 for 0.
static SMALL_INVERSES: [u64; 256] = [
    0,
    1,
    9223372034707292161,
    12297829379609722881,
    13835058052060938241,
    14757395255531667457,
    15372286724512153601,
    2635249152773512046,
    16140901060737761281,
    4099276459869907627,
    16602069662473125889,
    8384883667915720146,
    16909515396963368961,
    11351842504255128813,
    1317624576386756023,
    17216961131453612033,
    17293822565076172801,
    17361641477096079361,
    11273010264642245974,
    10679693934924233028,
    17524406865943855105,
    7027331074062698789,
    4192441833957860073,
    11228452911817573065,
    17678129733188976641,
    14019525492755084084,
    14899293286834856567,
    13664254866233025423,
    9882184322900670172,
    10177513969332184453,
    17831852600434098177,
    11306068945770229100,
    17870283317245378561,
    2794961222638573382,
    17904192773255331841,
    15284445086086369866,
    5636505132321122987,
    2991363903148310971,
    5339846967462116514,
    3783947501418376271,
    17985575467679219713,
    17546902895296799720,
    12737037571738641555,
    16301773828784981493,
    11319592951686222197,
    11887901733622732118,
    14837598490616078693,
    1177451749111569212,
    18062436901301780481,
    5646962470228954384,
    7009762746377542042,
    18085043205308416001,
    16673018678124720444,
    17750640519625354724,
    16055499467823804872,
    16434371989114811486,
    4941092161450335086,
    3559897978308077676,
    14312129019373384387,
    6565790261995021538,
    18139298334924341249,
    8769763573983982710,
    5653034472885114550,
    8491358381159094370,
    18158513693329981441,
    9649066128616859491,
    1397480611319286691,
    2477920845145242670,
    18175468421334958081,
    3742817637272524355,
    7642222543043184933,
    9093465386331133116,
    12041624600867853654,
    17183268448221804573,
    10719053986281447646,
    10822089854056556135,
    2669923483731058257,
    17009335440629032296,
    11115345785416480296,
    9106620489964161880,
    18216159768546902017,
    4554751622077675141,
    8773451447648399860,
    6000748070773418996,
    15591890820576612938,
    18229723550950883329,
    17374258949099782907,
    15690334036053784365,
    14883168510550403259,
    12021473663213998771,
    5943950866811366059,
    1621691786322161259,
    16642171280015331507,
    9917604338394937807,
    588725874555784606,
    9514636414750680334,
    18254590485358182401,
    15023636922512908880,
    2823481235114477192,
    7080568430684385901,
    3504881373188771021,
    7670923276390223183,
    18265893637361500161,
    10566581554324858980,
    8336509339062360222,
    5094815028695456622,
    8875320259812677362,
    861997386421242258,
    8027749733911902436,
    6938683549045852818,
    8217185994557405743,
    13294950680659159871,
    2470546080725167543,
    2448682841072732432,
    1779948989154038838,
    2245690582363514613,
    16379436544393984354,
    7410230523610986864,
    3282895130997510769,
    7750732802275035429,
    18293021202169462785,
    5793192352378133919,
    4384881786991991355,
    11997882321570461347,
    2826517236442557275,
    6493253912433933681,
    4245679190579547185,
    12781995890617979687,
    18302628881372282881,
    5433924609594993831,
    14047905099015721906,
    2534667124041698609,
    9922112340366935506,
    14701916325999593519,
    1238960422572621335,
    10111548601012438813,
    18311106245374771201,
    9559991452032375816,
    11094780853343554338,
    13669170065825195576,
    13044483306228884627,
    6541398606175384511,
    4546732693165566558,
    7739892616537587827,
    6020812300433926827,
    9414200421632270619,
    17815006258818194447,
    14180150203019374342,
    5359526993140723823,
    10647114026641974843,
    14634416961735570228,
    7085504344543350269,
    10558333776572821289,
    12177262424907666774,
    8504667720314516148,
    2261213789154045820,
    5557672892708240148,
    18211753699103570508,
    4553310244982080940,
    12065794863013313015,
    18331451918980743169,
    12145061312782272907,
    11500747845746129731,
    7469233794977684449,
    4386725723824199930,
    11627038686176465269,
    3000374035386709498,
    7290329991505165061,
    7795945410288306469,
    5130159593269144752,
    18338233810182733825,
    1186632659436025892,
    17910501509257183614,
    16527429657567980172,
    17068539052734184343,
    17814284272748941430,
    16664956289982493790,
    8337511443803201953,
    15234108866314291546,
    103054436141980918,
    12195347468112975190,
    611494278544129867,
    10034217927868372790,
    2923254524661327570,
    17544457674714957914,
    15355668036161329651,
    14182174203904761064,
    1578331043372370851,
    294362937277892303,
    15128282173329421004,
    4757318207375340167,
    7533225326776636529,
    18350667277386383361,
    4014317362256023531,
    7511818461256454440,
    15514184755815342711,
    1411740617557238596,
    13483914446678680925,
    12763656250049485111,
    10474784320823356926,
    10975812721301677671,
    13123802994658137104,
    13058833672902403752,
    17265425483688527197,
    18356318853388042241,
    3509380579059359944,
    5283290777162429490,
    7396520568895702892,
    4168254669531180111,
    4324834733977581970,
    2547407514347728311,
    9704211335094876112,
    4437660129906338681,
    3031155128777044372,
    430998693210621129,
    10639052393522830027,
    4013874866955951218,
    4250401859312116203,
    3469341774522926409,
    5727756149407268191,
    13331965031985995032,
    16944294326204346684,
    15870847375036872096,
    11580915559273730067,
    10458645075069875932,
    9756277974490380152,
    1224341420536366216,
    1300211035729662331,
    889974494577019419,
    6202617001506213942,
    10346217325889049467,
    5669778480209677432,
    8189718272196992177,
    7442034088090003975,
    3705115261805493432,
    11303536791471064435,
    10864819600206047545,
    15333369542931110174,
    13098738435844809875,
    15745338034144666115,
    18369882635792023553,
    17834404017317834634,
    12119968210896359120,
    13816079920302281261,
    11415812928203287838,
    4818741307928707741,
    15222313195492522834,
    9335396796262441458,
    10636630652928570798,
    8149164046729334439,
    12469998990924259001,
    6614370383455428641,
    11346211629997065753,
    4374721913695158337,
    15614369980016282004,
    18374403896593350657,
];

// The inverse of a number below 256, looked up.
fn small_inverse(k: u64) -> BFieldElement
    requires { k < 256 }
    ensures { result.0 ≡ inv_f k }
{
    BFieldElement(SMALL_INVERSES[k as usize])
}

// The upper 64 bits of u * v, by halves of 32 bits. `high` and `low` share no intermediate value: so the compiler makes one
// multiplication instruction of the two.
#[tactic(auto, using(crate::proofs::Words::upper))]
fn high(u: u64, v: u64) -> u64
    ensures { result ≡ u * v / 2 ^ 64 }
{
    let u0 = u % TWO_POW_32;
    let u1 = u / TWO_POW_32;
    let v0 = v % TWO_POW_32;
    let v1 = v / TWO_POW_32;
    let w0 = u0 * v0;
    let t = u1 * v0 + w0 / TWO_POW_32;
    let w1 = t % TWO_POW_32 + u0 * v1;
    u1 * v1 + t / TWO_POW_32 + w1 / TWO_POW_32
}

// The lower 64 bits of u * v: what passes 2^64 is lost.
#[tactic(auto, using(crate::proofs::Words::lower))]
fn low(u: u64, v: u64) -> u64
    ensures { result ≡ u * v % 2 ^ 64 }
{
    let u0 = u % TWO_POW_32;
    let u1 = u / TWO_POW_32;
    let v0 = v % TWO_POW_32;
    let v1 = v / TWO_POW_32;
    let m = (u0 * v1).wrapping_add(u1 * v0);
    (m % TWO_POW_32 * TWO_POW_32).wrapping_add(u0 * v0)
}

// The product of two words: its upper and its lower 64 bits.
fn wide_mul(u: u64, v: u64) -> (u64, u64)
    ensures { result.0 * 2 ^ 64 + result.1 ≡ u * v }
{
    (high(u, v), low(u, v))
}

// A base element: its content, any number of 64 bits, stands for that number modulo P.
#[derive(Clone, Copy)]
pub struct BFieldElement(pub u64);

impl BFieldElement {
    pub const P: u64 = 18446744069414584321;

    pub const ZERO: BFieldElement = BFieldElement(0);

    pub const ONE: BFieldElement = BFieldElement(1);

    // 2^32 - 1, which is 2^64 modulo P: what a sum that passed 2^64 has lost.
    const EPSILON: u64 = 4294967295;

    // The element of a number: the number is reduced.
    pub fn new(v: u64) -> Self
        ensures { result.0 ≡ v % p }
    {
        if v < Self::P {
            BFieldElement(v)
        } else {
            BFieldElement(v - Self::P)
        }
    }

    // The number below P that the element stands for.
    pub fn value(self) -> u64
        ensures { result ≡ self.0 % p }
    {
        BFieldElement::new(self.0).0
    }

    // The element of a number of 128 bits. Its upper half hh * 2^32 + hl counts hl * (2^32 - 1) - hh, for modulo P 2^64 is 2^32 - 1
    // and 2^96 is -1.
    fn fold(low: u64, high: u64) -> Self
        ensures { result.0 ≡ (high * 2 ^ 64 + low) % p }
    {
        let hh = high / TWO_POW_32;
        let t1 = high % TWO_POW_32 * Self::EPSILON;
        let t0 = if low < hh {
            low + (Self::P - hh)
        } else {
            low - hh
        };
        let (s, passed) = t0.overflowing_add(t1);
        if passed {
            BFieldElement(s + Self::EPSILON)
        } else {
            BFieldElement::new(s)
        }
    }

    // The element to the power e, 1 for e = 0: by squares, one for each binary digit of e. The power that is asked for is always `power` times
    // `square` to the power `rest`.
    pub fn pow(self, e: u64) -> Self
        ensures { result.0 ≡ pow_f self.0 e }
    {
        let mut power = Self::ONE;
        let mut square = self;
        let mut rest = e;
        while rest != 0 {
            if rest % 2 == 1 {
                power = power * square;
            }
            square = square * square;
            rest /= 2;
        }
        power
    }

    // Euclid's algorithm on P and a, two divisions in a turn, down to a remainder below 256, whose inverse is looked up. Modulo P, a * t1 is
    // r1 and a * t0 is -r0; and t1 * r0 + t0 * r1 is P, so that nothing wraps. P is prime: the remainders come down to 1.
    pub fn inverse_or_zero(self) -> Self
        ensures { result.0 ≡ inv_f self.0 }
    {
        let a = self.value();
        if a == 0 {
            return Self::ZERO;
        }
        let mut r0 = Self::P;
        let mut r1 = a;
        let mut t0: u64 = 0;
        let mut t1: u64 = 1;
        while 256 <= r1 {
            let first = r0 / r1;
            r0 %= r1;
            t0 += first * t1;
            if r0 < 256 {
                return -(BFieldElement(t0) * small_inverse(r0));
            }
            let second = r1 / r0;
            r1 %= r0;
            t1 += second * t0;
        }
        BFieldElement(t1) * small_inverse(r1)
    }

    // The inverse of half of x, rounded down, from that of x: twice it where x is even.
    #[tactic(auto, using(crate::proofs::Inverses::inv_f_half))]
    pub fn inverse_of_half(x: u64, inverse: Self) -> Self
        requires { inverse.0 ≡ inv_f x }
        ensures { result.0 ≡ inv_f (x / 2) }
    {
        if x % 2 == 0 {
            inverse + inverse
        } else {
            BFieldElement(x / 2).inverse_or_zero()
        }
    }

    #[tactic(auto, unfolding(crate::specs::Elements::is_zero_f))]
    pub fn is_zero(self) -> bool
        ensures { result ≡ is_zero_f self.0 }
    {
        self.0 == 0 || self.0 == Self::P
    }
}

impl Add for BFieldElement {
    type Output = BFieldElement;

    ghost add_gives = { λ a b r. r.0 ≡ add_f a.0 b.0 };

    // Both sides are reduced, so that one mend is enough.
    #[tactic(auto, unfolding(crate::specs::Elements::add_f))]
    fn add(self, other: BFieldElement) -> BFieldElement {
        let a = self.value();
        let b = other.value();
        let (s, passed) = a.overflowing_add(b);
        if passed {
            BFieldElement(s + Self::EPSILON)
        } else {
            BFieldElement::new(s)
        }
    }
}

impl Sub for BFieldElement {
    type Output = BFieldElement;

    ghost sub_gives = { λ a b r. r.0 ≡ sub_f a.0 b.0 };

    #[tactic(auto, unfolding(crate::specs::Elements::sub_f))]
    fn sub(self, other: BFieldElement) -> BFieldElement {
        let a = self.value();
        let b = other.value();
        if a < b {
            BFieldElement(a + (Self::P - b))
        } else {
            BFieldElement(a - b)
        }
    }
}

impl Neg for BFieldElement {
    type Output = BFieldElement;

    ghost neg_gives = { λ a r. r.0 ≡ neg_f a.0 };

    #[tactic(auto, unfolding(crate::specs::Elements::neg_f))]
    fn neg(self) -> BFieldElement {
        let a = self.value();
        if 0 < a {
            BFieldElement(Self::P - a)
        } else {
            Self::ZERO
        }
    }
}

impl Mul for BFieldElement {
    type Output = BFieldElement;

    ghost mul_gives = { λ a b r. r.0 ≡ mul_f a.0 b.0 };

    #[tactic(auto, unfolding(crate::specs::Elements::mul_f))]
    fn mul(self, other: BFieldElement) -> BFieldElement {
        let (high, low) = wide_mul(self.0, other.0);
        BFieldElement::fold(low, high)
    }
}

// Elements are told apart by their content modulo P.
impl PartialEq for BFieldElement {
    ghost eq = { λ a b. equal_f a.0 b.0 };

    ghost laws = { partial_equiv_from_equiv (on_equiv (λ a. a.0) equal_f_equivalence) };

    #[tactic(auto, unfolding(crate::specs::Elements::equal_f))]
    fn eq(&self, other: &BFieldElement) -> bool {
        self.value() == other.value()
    }
}

impl Eq for BFieldElement {
    ghost laws = { on_equiv (λ a. a.0) equal_f_equivalence };
}
