// The times that a byte of a link record stands for.
ghost use Rattle.std.specs.Prelude.{◌≡◌, true};
ghost use Rattle.timing.specs.TimeCodes.{by_rule, seconds_of_code, hold_of_code};

// The seconds of the codes 0 to 251.
const SECONDS: [u32; 252] = [
    0, 1, 2, 3, 4, 5, 6, 7, 8, 9, 10, 11, 12, 13, 14, 15, 16, 17, 18, 19, 20, 21, 22, 23, 24, 25,
    26, 27, 28, 29, 30, 31, 32, 33, 34, 35, 36, 37, 38, 39, 40, 41, 42, 43, 44, 45, 46, 47, 48, 49,
    50, 51, 52, 53, 54, 55, 56, 57, 58, 59, 60, 61, 62, 63, 64, 65, 66, 67, 68, 69, 70, 71, 72, 73,
    74, 75, 76, 77, 78, 79, 80, 81, 82, 83, 84, 85, 86, 87, 88, 89, 90, 91, 92, 93, 94, 95, 96, 97,
    98, 99, 100, 101, 102, 103, 104, 105, 106, 107, 108, 109, 110, 111, 112, 113, 114, 115, 116,
    117, 118, 119, 120, 135, 150, 165, 180, 195, 210, 225, 240, 255, 270, 285, 300, 330, 360, 390,
    420, 450, 480, 510, 540, 570, 600, 630, 660, 690, 720, 750, 780, 810, 840, 870, 900, 930, 960,
    990, 1020, 1050, 1080, 1110, 1140, 1170, 1200, 1230, 1260, 1290, 1320, 1350, 1380, 1410, 1440,
    1470, 1500, 1530, 1560, 1590, 1620, 1650, 1680, 1710, 1740, 1770, 1800, 1860, 1920, 1980, 2040,
    2100, 2160, 2220, 2280, 2340, 2400, 2460, 2520, 2580, 2640, 2700, 2760, 2820, 2880, 2940, 3000,
    3060, 3120, 3180, 3240, 3300, 3360, 3420, 3480, 3540, 3600, 4500, 5400, 6300, 7200, 8100, 9000,
    9900, 10800, 11700, 12600, 13500, 14400, 15300, 16200, 17100, 18000, 19800, 21600, 23400,
    25200, 27000, 28800, 30600, 32400, 34200, 36000, 39600, 43200, 46800, 50400, 54000, 57600,
    61200, 64800, 68400, 72000, 75600, 79200, 82800,
];

// An entry of a table that has passed the test of the rule.
fn entry(table: &[u32; 252], code: u8) -> Option<u32>
    requires { by_rule 0 table.now ≡ true }
    ensures { result ≡ seconds_of_code code }
{
    table.get(usize::from(code)).copied()
}

// The seconds of a code; the last four codes have none.
pub fn seconds_of_code(code: u8) -> Option<u32>
    ensures { result ≡ seconds_of_code code }
{
    entry(&SECONDS, code)
}

// The hold of a code: code 0 asks for no timer, so that hold has no end.
pub fn hold_of_code(code: u8) -> Option<u32>
    ensures { result ≡ hold_of_code code }
{
    match code {
        0 => Some(0xFFFFFF),
        _ => seconds_of_code(code),
    }
}
