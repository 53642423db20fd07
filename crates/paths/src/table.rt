// The clash table: how two paths from distinct starts clash, 0 clear, 1 meeting, 2 near-miss. Beside the entries stand the direction of the first
// path, that of the second, and the class of the difference of their rows, second start less first, behind the first of five entries, of which the
// other four stand in the next line: for the column difference below -1, -1, 0, 1 and above 1. Where both differences are 0 the starts are not
// distinct: clear, and never read.
pub const CLASHES: [u8; 400] = [
    0, // south, south, below -1
    0, 1, 0, 0, 0, // south, south, -1
    0, 1, 0, 0, 0, // south, south, 0
    0, 0, 0, 0, 0, // south, south, 1
    0, 1, 0, 0, 0, // south, south, above 1
    0, 1, 0, 0, 0, // south, north, below -1
    0, 0, 0, 0, 0, // south, north, -1
    0, 0, 0, 0, 0, // south, north, 0
    0, 0, 0, 0, 0, // south, north, 1
    2, 1, 2, 0, 0, // south, north, above 1
    2, 1, 2, 0, 0, // south, east, below -1
    0, 0, 0, 0, 0, // south, east, -1
    0, 0, 0, 0, 1, // south, east, 0
    1, 0, 0, 0, 1, // south, east, 1
    1, 1, 0, 0, 1, // south, east, above 1
    1, 1, 0, 0, 0, // south, west, below -1
    0, 0, 0, 0, 0, // south, west, -1
    0, 0, 0, 0, 0, // south, west, 0
    0, 0, 1, 1, 0, // south, west, 1
    0, 1, 1, 1, 0, // south, west, above 1
    0, 1, 1, 1, 0, // north, south, below -1
    2, 1, 2, 0, 0, // north, south, -1
    2, 1, 2, 0, 0, // north, south, 0
    0, 0, 0, 0, 0, // north, south, 1
    0, 0, 0, 0, 0, // north, south, above 1
    0, 0, 0, 0, 0, // north, north, below -1
    0, 1, 0, 0, 0, // north, north, -1
    0, 1, 0, 0, 0, // north, north, 0
    0, 0, 0, 0, 0, // north, north, 1
    0, 1, 0, 0, 0, // north, north, above 1
    0, 1, 0, 0, 1, // north, east, below -1
    1, 1, 0, 0, 1, // north, east, -1
    1, 1, 0, 0, 1, // north, east, 0
    1, 0, 0, 0, 0, // north, east, 1
    0, 0, 0, 0, 0, // north, east, above 1
    0, 0, 0, 0, 0, // north, west, below -1
    0, 1, 1, 1, 0, // north, west, -1
    0, 1, 1, 1, 0, // north, west, 0
    0, 0, 1, 1, 0, // north, west, 1
    0, 0, 0, 0, 0, // north, west, above 1
    0, 0, 0, 0, 0, // east, south, below -1
    0, 1, 1, 1, 0, // east, south, -1
    0, 1, 1, 1, 0, // east, south, 0
    0, 0, 1, 1, 0, // east, south, 1
    0, 0, 0, 0, 0, // east, south, above 1
    0, 0, 0, 0, 0, // east, north, below -1
    0, 0, 0, 0, 0, // east, north, -1
    0, 0, 0, 0, 0, // east, north, 0
    0, 0, 1, 1, 0, // east, north, 1
    0, 1, 1, 1, 0, // east, north, above 1
    0, 1, 1, 1, 0, // east, east, below -1
    0, 0, 0, 0, 0, // east, east, -1
    0, 0, 0, 0, 1, // east, east, 0
    1, 0, 1, 1, 0, // east, east, 1
    0, 0, 0, 0, 0, // east, east, above 1
    0, 0, 0, 0, 0, // east, west, below -1
    0, 0, 0, 0, 0, // east, west, -1
    0, 0, 2, 2, 0, // east, west, 0
    0, 0, 1, 1, 0, // east, west, 1
    0, 0, 2, 2, 0, // east, west, above 1
    0, 0, 0, 0, 1, // west, south, below -1
    1, 1, 0, 0, 1, // west, south, -1
    1, 1, 0, 0, 1, // west, south, 0
    1, 0, 0, 0, 0, // west, south, 1
    0, 0, 0, 0, 0, // west, south, above 1
    0, 0, 0, 0, 0, // west, north, below -1
    0, 0, 0, 0, 0, // west, north, -1
    0, 0, 0, 0, 1, // west, north, 0
    1, 0, 0, 0, 1, // west, north, 1
    1, 1, 0, 0, 1, // west, north, above 1
    1, 1, 0, 0, 0, // west, east, below -1
    0, 0, 0, 0, 2, // west, east, -1
    2, 0, 0, 0, 1, // west, east, 0
    1, 0, 0, 0, 2, // west, east, 1
    2, 0, 0, 0, 0, // west, east, above 1
    0, 0, 0, 0, 0, // west, west, below -1
    0, 0, 0, 0, 0, // west, west, -1
    0, 0, 0, 0, 1, // west, west, 0
    1, 0, 1, 1, 0, // west, west, 1
    0, 0, 0, 0, 0, // west, west, above 1
    0, 0, 0, 0,
];
