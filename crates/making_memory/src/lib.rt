// The map of the working memory, 32,768 numbers, while a sheet is made from its text. The levels' scopes stand from 32,400 on (`walk_levels`); from 32,728
// on it is free.
#![tactic(auto)]

// The nodes in the order in which they are made, so each behind its subterms: kind, first body byte, left (of a part its type), right, and
// the offset of the word that it came from. At most 2,048, five numbers each.
pub const NODES: usize = 0;

// The types in the order of the sheet's table: kind, left, right, bits. At most 256, four numbers each.
pub const TYPES: usize = 10240;

// The names in scope, the outermost first: the name's offset, its value. At most 1,024, two numbers each. The text's length is the offset of
// a name that no text has.
pub const SCOPE: usize = 11264;

// Terms of tuples that wait for the later ones: node, type, depth, and the offset of the comma behind. At most 2,048, four numbers each.
pub const HALVES: usize = 13312;

// The clauses in the order of the text: the offsets of the name, of what stands behind it, of the number parameters, of the body and of
// what stands behind that; the key of its sort and name; how many type parameters and number parameters. At most 256, eight numbers each.
pub const CLAUSES: usize = 21504;

// The first 27 number parameters of each clause, a cell each: k is itself, n + k is 256 + k. Behind them stands the offset from which on the later ones are
// read. 28 numbers for each of the 256 clauses.
pub const CELLS: usize = 23552;

// The definitions that are being put in, by the levels that their bodies may have: how many clauses they know, and where in the scope their
// type parameters, their number parameters and their variables begin. The last is the text itself. At most 82, four numbers each.
pub const FRAMES: usize = 30720;

// How many types, nodes and clauses there are, and what the definitions that were put in have cost; 1 in the second edition.
pub const TYPE_COUNT: usize = 31232;

pub const NODE_COUNT: usize = 31233;

pub const PUT_COUNT: usize = 31234;

pub const CLAUSE_COUNT: usize = 31235;

pub const SECOND: usize = 31236;

// What waits at each level of the walk for the subterm below it. At most 82, eight numbers each.
pub const LEVELS: usize = 31744;

pub const MOST_TYPES: u16 = 256;

pub const MOST_NODES: u16 = 2048;

pub const MOST_DEEP: u16 = 64;

pub const MOST_PUTS: u16 = 32767;

pub const MOST_CLAUSES: u16 = 256;

pub const MOST_ENTRIES: u16 = 1024;
