// The numbers of the table of op names, apart from the functions that read them.

use super::{OPERANDS, Packed, ROWS};

// What the table says of a name: the name; the largest number that each of its operands may be, and 0 behind the operands that it has; how many
// those are; what a plain name needs, and the net change of the height by it, both 0 where more than the name decides, as in the definition
// `plain_effect`.
#[derive(Clone, Copy)]
pub(super) struct Op {
    pub(super) name: Packed,
    pub(super) maxima: [u64; OPERANDS],
    pub(super) operands: u8,
    pub(super) need: u8,
    pub(super) net: i8,
}

// An op for each code.
pub(super) static OPS: [Op; ROWS] = [
    Op {
        name: Packed {
            words: [500152823619, 0, 0],
            length: 5,
        },
        maxima: [65535, 0, 0],
        operands: 1,
        need: 0,
        net: 0,
    },
    Op {
        name: Packed {
            words: [7809632558512366919, 0, 0],
            length: 8,
        },
        maxima: [65535, 0, 0],
        operands: 1,
        need: 0,
        net: 0,
    },
    Op {
        name: Packed {
            words: [27431033850062151, 0, 0],
            length: 7,
        },
        maxima: [4294967295, 0, 0],
        operands: 1,
        need: 0,
        net: 1,
    },
    Op {
        name: Packed {
            words: [7308617932344620368, 435744237924, 0],
            length: 13,
        },
        maxima: [255, 0, 0],
        operands: 1,
        need: 0,
        net: 1,
    },
    Op {
        name: Packed {
            words: [7370052, 0, 0],
            length: 3,
        },
        maxima: [0, 0, 0],
        operands: 0,
        need: 0,
        net: 0,
    },
    Op {
        name: Packed {
            words: [7809632558512366931, 0, 0],
            length: 8,
        },
        maxima: [65535, 0, 0],
        operands: 1,
        need: 0,
        net: 0,
    },
    Op {
        name: Packed {
            words: [27431033850062163, 0, 0],
            length: 7,
        },
        maxima: [4294967295, 0, 0],
        operands: 1,
        need: 1,
        net: -1,
    },
    Op {
        name: Packed {
            words: [5287635398618801479, 110386974385262, 0],
            length: 14,
        },
        maxima: [4294967295, 4294967295, 0],
        operands: 2,
        need: 0,
        net: 0,
    },
    Op {
        name: Packed {
            words: [5287635398618801491, 110386974385262, 0],
            length: 14,
        },
        maxima: [4294967295, 4294967295, 0],
        operands: 2,
        need: 0,
        net: 0,
    },
    Op {
        name: Packed {
            words: [7512975478571233090, 7037797, 0],
            length: 11,
        },
        maxima: [65535, 0, 0],
        operands: 1,
        need: 0,
        net: 0,
    },
    Op {
        name: Packed {
            words: [8675450682040673607, 499850692128, 0],
            length: 13,
        },
        maxima: [7, 0, 0],
        operands: 1,
        need: 0,
        net: 0,
    },
    Op {
        name: Packed {
            words: [8675450682040673607, 8315138548767147552, 6579572],
            length: 19,
        },
        maxima: [65535, 3, 0],
        operands: 2,
        need: 0,
        net: 0,
    },
    Op {
        name: Packed {
            words: [8675450682040673607, 110386975031840, 0],
            length: 14,
        },
        maxima: [0, 0, 0],
        operands: 0,
        need: 0,
        net: 0,
    },
    Op {
        name: Packed {
            words: [6579265, 0, 0],
            length: 3,
        },
        maxima: [0, 0, 0],
        operands: 0,
        need: 2,
        net: -1,
    },
    Op {
        name: Packed {
            words: [6452563, 0, 0],
            length: 3,
        },
        maxima: [0, 0, 0],
        operands: 0,
        need: 2,
        net: -1,
    },
    Op {
        name: Packed {
            words: [7107917, 0, 0],
            length: 3,
        },
        maxima: [0, 0, 0],
        operands: 0,
        need: 2,
        net: -1,
    },
    Op {
        name: Packed {
            words: [486496300355, 0, 0],
            length: 5,
        },
        maxima: [0, 0, 0],
        operands: 0,
        need: 2,
        net: -1,
    },
    Op {
        name: Packed {
            words: [435107687747, 0, 0],
            length: 5,
        },
        maxima: [0, 0, 0],
        operands: 0,
        need: 2,
        net: -1,
    },
    Op {
        name: Packed {
            words: [499498642755, 0, 0],
            length: 5,
        },
        maxima: [0, 0, 0],
        operands: 0,
        need: 2,
        net: -1,
    },
    Op {
        name: Packed {
            words: [499414756675, 0, 0],
            length: 5,
        },
        maxima: [0, 0, 0],
        operands: 0,
        need: 2,
        net: -1,
    },
    Op {
        name: Packed {
            words: [435074133315, 0, 0],
            length: 5,
        },
        maxima: [0, 0, 0],
        operands: 0,
        need: 2,
        net: -1,
    },
    Op {
        name: Packed {
            words: [434990247235, 0, 0],
            length: 5,
        },
        maxima: [0, 0, 0],
        operands: 0,
        need: 2,
        net: -1,
    },
    Op {
        name: Packed {
            words: [110424707328322, 0, 0],
            length: 6,
        },
        maxima: [0, 0, 0],
        operands: 0,
        need: 2,
        net: -1,
    },
    Op {
        name: Packed {
            words: [490959300930, 0, 0],
            length: 5,
        },
        maxima: [0, 0, 0],
        operands: 0,
        need: 2,
        net: -1,
    },
    Op {
        name: Packed {
            words: [125822550960450, 0, 0],
            length: 6,
        },
        maxima: [0, 0, 0],
        operands: 0,
        need: 2,
        net: -1,
    },
    Op {
        name: Packed {
            words: [7104595, 0, 0],
            length: 3,
        },
        maxima: [0, 0, 0],
        operands: 0,
        need: 2,
        net: -1,
    },
    Op {
        name: Packed {
            words: [7497811, 0, 0],
            length: 3,
        },
        maxima: [0, 0, 0],
        operands: 0,
        need: 2,
        net: -1,
    },
    Op {
        name: Packed {
            words: [7815237821965822278, 0, 0],
            length: 8,
        },
        maxima: [255, 0, 0],
        operands: 1,
        need: 2,
        net: -1,
    },
    Op {
        name: Packed {
            words: [6776142, 0, 0],
            length: 3,
        },
        maxima: [0, 0, 0],
        operands: 0,
        need: 1,
        net: 0,
    },
    Op {
        name: Packed {
            words: [7630670, 0, 0],
            length: 3,
        },
        maxima: [0, 0, 0],
        operands: 0,
        need: 1,
        net: 0,
    },
    Op {
        name: Packed {
            words: [8028869679666982473, 29793, 0],
            length: 10,
        },
        maxima: [0, 0, 0],
        operands: 0,
        need: 1,
        net: 0,
    },
    Op {
        name: Packed {
            words: [5291540946011253830, 29806, 0],
            length: 10,
        },
        maxima: [0, 0, 0],
        operands: 0,
        need: 1,
        net: 0,
    },
    Op {
        name: Packed {
            words: [8737668635305340759, 25972, 0],
            length: 10,
        },
        maxima: [0, 0, 0],
        operands: 0,
        need: 1,
        net: 0,
    },
    Op {
        name: Packed {
            words: [8023003669453896002, 25714, 0],
            length: 10,
        },
        maxima: [0, 0, 0],
        operands: 0,
        need: 1,
        net: 0,
    },
    Op {
        name: Packed {
            words: [7585873030605336407, 6579576, 0],
            length: 11,
        },
        maxima: [255, 0, 0],
        operands: 1,
        need: 1,
        net: 0,
    },
    Op {
        name: Packed {
            words: [6300347193890466118, 6582895, 0],
            length: 11,
        },
        maxima: [255, 0, 0],
        operands: 1,
        need: 1,
        net: 0,
    },
    Op {
        name: Packed {
            words: [7236270204105549127, 499850692128, 0],
            length: 13,
        },
        maxima: [65535, 7, 0],
        operands: 2,
        need: 0,
        net: 0,
    },
    Op {
        name: Packed {
            words: [7236270204105549127, 8315138548767147552, 6579572],
            length: 19,
        },
        maxima: [65535, 65535, 3],
        operands: 3,
        need: 0,
        net: 0,
    },
    Op {
        name: Packed {
            words: [7236270204105549127, 110386975031840, 0],
            length: 14,
        },
        maxima: [65535, 0, 0],
        operands: 1,
        need: 0,
        net: 0,
    },
    Op {
        name: Packed {
            words: [7308339944545871175, 7801959020153366854, 29793],
            length: 18,
        },
        maxima: [65535, 7, 0],
        operands: 2,
        need: 0,
        net: 0,
    },
    Op {
        name: Packed {
            words: [
                7308339944545871175,
                7801959020153366854,
                7234316415410271329,
            ],
            length: 24,
        },
        maxima: [65535, 65535, 3],
        operands: 3,
        need: 0,
        net: 0,
    },
    Op {
        name: Packed {
            words: [7308339944545871175, 8017005902360308038, 6579576],
            length: 19,
        },
        maxima: [255, 0, 0],
        operands: 1,
        need: 0,
        net: 0,
    },
    Op {
        name: Packed {
            words: [5074841471588525383, 7020063024101483881, 116],
            length: 17,
        },
        maxima: [65535, 7, 0],
        operands: 2,
        need: 0,
        net: 0,
    },
    Op {
        name: Packed {
            words: [5074841471588525383, 7020063024101483881, 28259048497696372],
            length: 23,
        },
        maxima: [65535, 65535, 3],
        operands: 3,
        need: 0,
        net: 0,
    },
    Op {
        name: Packed {
            words: [5074841471588525383, 8678227713857447273, 25701],
            length: 18,
        },
        maxima: [255, 0, 0],
        operands: 1,
        need: 0,
        net: 0,
    },
    Op {
        name: Packed {
            words: [7234892, 0, 0],
            length: 3,
        },
        maxima: [0, 0, 0],
        operands: 0,
        need: 1,
        net: 0,
    },
    Op {
        name: Packed {
            words: [431315315033, 0, 0],
            length: 5,
        },
        maxima: [0, 0, 0],
        operands: 0,
        need: 0,
        net: 0,
    },
    Op {
        name: Packed {
            words: [120351128646473, 0, 0],
            length: 6,
        },
        maxima: [65535, 65535, 65535],
        operands: 3,
        need: 0,
        net: 0,
    },
    Op {
        name: Packed {
            words: [8386676065532343113, 0, 0],
            length: 8,
        },
        maxima: [65535, 0, 0],
        operands: 1,
        need: 0,
        net: 0,
    },
    Op {
        name: Packed {
            words: [1819042115, 0, 0],
            length: 4,
        },
        maxima: [65535, 255, 0],
        operands: 2,
        need: 0,
        net: 0,
    },
    Op {
        name: Packed {
            words: [7598246943188083011, 7598805460600580454, 25974],
            length: 18,
        },
        maxima: [65535, 255, 0],
        operands: 2,
        need: 0,
        net: 0,
    },
    Op {
        name: Packed {
            words: [7310600334696276291, 7598805460734537330, 25974],
            length: 18,
        },
        maxima: [65535, 255, 0],
        operands: 2,
        need: 0,
        net: 0,
    },
    Op {
        name: Packed {
            words: [8030038460242289998, 7020063024118786419, 116],
            length: 17,
        },
        maxima: [3, 65535, 65535],
        operands: 3,
        need: 0,
        net: 0,
    },
    Op {
        name: Packed {
            words: [8030038460242289998, 8678227713874749811, 25701],
            length: 18,
        },
        maxima: [3, 65535, 65535],
        operands: 3,
        need: 0,
        net: 0,
    },
    Op {
        name: Packed {
            words: [7760196, 0, 0],
            length: 3,
        },
        maxima: [0, 0, 0],
        operands: 0,
        need: 2,
        net: 1,
    },
    Op {
        name: Packed {
            words: [6582093, 0, 0],
            length: 3,
        },
        maxima: [0, 0, 0],
        operands: 0,
        need: 2,
        net: 1,
    },
    Op {
        name: Packed {
            words: [8532426167019923782, 0, 0],
            length: 8,
        },
        maxima: [255, 0, 0],
        operands: 1,
        need: 2,
        net: 1,
    },
    Op {
        name: Packed {
            words: [4712002622039877699, 25700, 0],
            length: 10,
        },
        maxima: [0, 0, 0],
        operands: 0,
        need: 2,
        net: 1,
    },
    Op {
        name: Packed {
            words: [6009039314722580547, 25205, 0],
            length: 10,
        },
        maxima: [0, 0, 0],
        operands: 0,
        need: 2,
        net: 1,
    },
    Op {
        name: Packed {
            words: [5576693750495012931, 25711, 0],
            length: 10,
        },
        maxima: [0, 0, 0],
        operands: 0,
        need: 2,
        net: 1,
    },
    Op {
        name: Packed {
            words: [5576693750495012931, 27765, 0],
            length: 10,
        },
        maxima: [255, 0, 0],
        operands: 1,
        need: 2,
        net: 1,
    },
    Op {
        name: Packed {
            words: [4928175404153661507, 30313, 0],
            length: 10,
        },
        maxima: [255, 0, 0],
        operands: 1,
        need: 2,
        net: 1,
    },
    Op {
        name: Packed {
            words: [5648751344532940867, 26469, 0],
            length: 10,
        },
        maxima: [0, 0, 0],
        operands: 0,
        need: 1,
        net: 2,
    },
    Op {
        name: Packed {
            words: [1315991376, 0, 0],
            length: 4,
        },
        maxima: [255, 0, 0],
        operands: 1,
        need: 0,
        net: 0,
    },
    Op {
        name: Packed {
            words: [1885434452, 0, 0],
            length: 4,
        },
        maxima: [65535, 0, 0],
        operands: 1,
        need: 0,
        net: 0,
    },
    Op {
        name: Packed {
            words: [26185, 0, 0],
            length: 2,
        },
        maxima: [65535, 0, 0],
        operands: 1,
        need: 0,
        net: 0,
    },
    Op {
        name: Packed {
            words: [28791173168853570, 0, 0],
            length: 7,
        },
        maxima: [65535, 0, 0],
        operands: 1,
        need: 0,
        net: 0,
    },
    Op {
        name: Packed {
            words: [1702063173, 0, 0],
            length: 4,
        },
        maxima: [65535, 0, 0],
        operands: 1,
        need: 0,
        net: 0,
    },
    Op {
        name: Packed {
            words: [439317982789, 0, 0],
            length: 5,
        },
        maxima: [0, 0, 0],
        operands: 0,
        need: 0,
        net: 0,
    },
    Op {
        name: Packed {
            words: [1886351180, 0, 0],
            length: 4,
        },
        maxima: [65535, 0, 0],
        operands: 1,
        need: 0,
        net: 0,
    },
    Op {
        name: Packed {
            words: [31647721205296709, 0, 0],
            length: 7,
        },
        maxima: [65535, 0, 0],
        operands: 1,
        need: 0,
        net: 0,
    },
    Op {
        name: Packed {
            words: [461195539010, 0, 0],
            length: 5,
        },
        maxima: [65535, 0, 0],
        operands: 1,
        need: 0,
        net: 0,
    },
    Op {
        name: Packed {
            words: [120265081254995, 0, 0],
            length: 6,
        },
        maxima: [0, 0, 0],
        operands: 0,
        need: 0,
        net: 0,
    },
    Op {
        name: Packed {
            words: [499918267730, 0, 0],
            length: 5,
        },
        maxima: [0, 0, 0],
        operands: 0,
        need: 0,
        net: 0,
    },
    Op {
        name: Packed {
            words: [121437875889490, 0, 0],
            length: 6,
        },
        maxima: [0, 0, 0],
        operands: 0,
        need: 0,
        net: 0,
    },
];

// For each of 256 places the row whose name has it; 0 where no name has it.
pub(super) static PLACES: [u8; 256] = [
    0, 60, 0, 24, 0, 0, 0, 0, 0, 0, 0, 26, 0, 0, 0, 0, 0, 0, 0, 0, 0, 45, 0, 0, 0, 62, 0, 0, 0, 0,
    0, 0, 0, 0, 0, 0, 0, 0, 0, 36, 0, 0, 0, 0, 0, 0, 0, 0, 0, 10, 0, 17, 0, 0, 0, 46, 63, 0, 0, 58,
    0, 0, 0, 43, 2, 0, 0, 0, 0, 0, 3, 0, 0, 65, 0, 0, 6, 0, 0, 14, 29, 0, 20, 0, 0, 0, 18, 4, 0, 0,
    0, 0, 0, 38, 32, 0, 34, 0, 47, 0, 74, 0, 56, 12, 0, 0, 0, 0, 0, 41, 0, 22, 0, 15, 35, 0, 0, 51,
    67, 25, 0, 0, 0, 0, 49, 0, 0, 27, 0, 0, 64, 0, 0, 0, 16, 53, 0, 52, 0, 0, 0, 68, 0, 73, 0, 0,
    0, 0, 0, 70, 0, 72, 0, 0, 0, 0, 0, 44, 0, 42, 0, 0, 1, 0, 0, 0, 0, 0, 0, 0, 0, 31, 0, 0, 5, 71,
    0, 0, 0, 0, 0, 0, 0, 0, 0, 23, 0, 30, 7, 0, 50, 0, 0, 0, 0, 33, 0, 0, 0, 37, 8, 0, 0, 0, 0, 0,
    0, 0, 0, 11, 0, 0, 0, 0, 0, 57, 0, 9, 0, 0, 66, 0, 28, 0, 0, 0, 13, 0, 0, 48, 0, 0, 0, 0, 0,
    54, 69, 0, 55, 0, 0, 0, 21, 0, 0, 0, 19, 0, 39, 61, 0, 59, 0, 0, 0, 40,
];
