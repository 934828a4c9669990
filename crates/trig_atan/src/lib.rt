// Two-argument arc tangent and arc cosine: the step lists of docs/TRIG.md.
#![tactic(auto)]

ghost use Rattle.std.specs.Prelude.{◌≡◌};
ghost use Rattle.trig.specs.Trig.{atan_from, atan_right, atan_left, atan_up, atan2_steps, acos_steps};

const A0: f64 = -0.3333333333332504;

const A1: f64 = 0.19999999998153092;

const A2: f64 = -0.1428571413144526;

const A3: f64 = 0.11111104423338726;

const A4: f64 = -0.09090737065954943;

const A5: f64 = 0.07689500725723153;

const A6: f64 = -0.06636684770828444;

const A7: f64 = 0.05671432276436969;

const A8: f64 = -0.04303177714697351;

const A9: f64 = 0.02062727090468514;

const EDGE: f64 = 0.41421356237309503;

const PI: f64 = 3.141592653589793;

const PI_LOW: f64 = 1.2246467991473532e-16;

const PI_HALF: f64 = 1.5707963267948966;

const PI_HALF_LOW: f64 = 6.123233995736766e-17;

const PI_FOURTH: f64 = 0.7853981633974483;

const PI_FOURTH_LOW: f64 = 3.061616997868383e-17;

const PI_THREE_FOURTHS: f64 = 2.356194490192345;

const PI_THREE_FOURTHS_LOW: f64 = 9.184850993605148e-17;

fn atan_from(hi: f64, lo: f64, t: f64) -> f64
    ensures { result ≡ atan_from hi lo t }
{
    let z = t * t;
    let zz = z * z;
    let p = A0
        + z * A1
        + zz * (A2 + z * A3 + zz * (A4 + z * A5 + zz * (A6 + z * A7 + zz * (A8 + z * A9))));
    hi + (t + (t * z * p + lo))
}

fn atan_right(y: f64, x: f64) -> f64
    ensures { result ≡ atan_right y x }
{
    if y <= EDGE * x {
        atan_from(0.0, 0.0, y / x)
    } else if x <= EDGE * y {
        atan_from(PI_HALF, PI_HALF_LOW, -(x / y))
    } else {
        atan_from(PI_FOURTH, PI_FOURTH_LOW, (y - x) / (y + x))
    }
}

fn atan_left(y: f64, w: f64) -> f64
    ensures { result ≡ atan_left y w }
{
    if y <= EDGE * w {
        atan_from(PI, PI_LOW, -(y / w))
    } else if w <= EDGE * y {
        atan_from(PI_HALF, PI_HALF_LOW, w / y)
    } else {
        atan_from(PI_THREE_FOURTHS, PI_THREE_FOURTHS_LOW, (w - y) / (w + y))
    }
}

fn atan_up(y: f64, x: f64) -> f64
    ensures { result ≡ atan_up y x }
{
    if x < 0.0 {
        atan_left(y, -x)
    } else {
        atan_right(y, x)
    }
}

pub fn atan2(y: f64, x: f64) -> f64
    ensures { result ≡ atan2_steps y x }
{
    if y == 0.0 {
        if 1.0 / x < 0.0 {
            if 1.0 / y < 0.0 { -PI } else { PI }
        } else {
            y
        }
    } else if y < 0.0 {
        -atan_up(-y, x)
    } else {
        atan_up(y, x)
    }
}

pub fn acos(x: f64) -> f64
    ensures { result ≡ acos_steps x }
{
    atan2(root::root((1.0 - x) * (1.0 + x)), x)
}
