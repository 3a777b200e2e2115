// A table of 182 entries stands as 7 rows of 26, each read at literal places alone: the compiler makes that a load from read-only data.
// An array that is indexed by a variable would be stored on the stack at every call, and so would a table that is handed to a function.
ghost use Rattle.std.specs.Prelude.{◌≡◌, ◌<◌, get_or};

// The entry at a place of a row.
pub(crate) fn entry(row: [u64; 26], j: usize) -> u64
    requires { j < 26 }
    ensures { result ≡ get_or row j 0 }
{
    match j {
        0 => row[0],
        1 => row[1],
        2 => row[2],
        3 => row[3],
        4 => row[4],
        5 => row[5],
        6 => row[6],
        7 => row[7],
        8 => row[8],
        9 => row[9],
        10 => row[10],
        11 => row[11],
        12 => row[12],
        13 => row[13],
        14 => row[14],
        15 => row[15],
        16 => row[16],
        17 => row[17],
        18 => row[18],
        19 => row[19],
        20 => row[20],
        21 => row[21],
        22 => row[22],
        23 => row[23],
        24 => row[24],
        25 => row[25],
        _ => 0,
    }
}
