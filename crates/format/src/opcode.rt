// opcode.rs: the opcodes by name.

pub const NOP: u8 = 0x00;

pub const ALT: u8 = 0x01;

pub const NBALT: u8 = 0x02;

pub const GOTO: u8 = 0x03;

pub const CALL: u8 = 0x04;

pub const FRAME: u8 = 0x05;

pub const SPAWN: u8 = 0x06;

pub const RUNT: u8 = 0x07;

pub const LOAD: u8 = 0x08;

pub const MCALL: u8 = 0x09;

pub const MSPAWN: u8 = 0x0A;

pub const MFRAME: u8 = 0x0B;

pub const RET: u8 = 0x0C;

pub const JMP: u8 = 0x0D;

pub const CASEW: u8 = 0x0E;

pub const EXIT: u8 = 0x0F;

pub const NEW: u8 = 0x10;

pub const NEWA: u8 = 0x11;

pub const NEWCB: u8 = 0x12;

pub const NEWCW: u8 = 0x13;

pub const NEWCF: u8 = 0x14;

pub const NEWCP: u8 = 0x15;

pub const NEWCM: u8 = 0x16;

pub const NEWCMP: u8 = 0x17;

pub const SEND: u8 = 0x18;

pub const RECV: u8 = 0x19;

pub const CONSB: u8 = 0x1A;

pub const CONSW: u8 = 0x1B;

pub const CONSP: u8 = 0x1C;

pub const CONSF: u8 = 0x1D;

pub const CONSM: u8 = 0x1E;

pub const CONSMP: u8 = 0x1F;

pub const HEADB: u8 = 0x20;

pub const HEADW: u8 = 0x21;

pub const HEADP: u8 = 0x22;

pub const HEADF: u8 = 0x23;

pub const HEADM: u8 = 0x24;

pub const HEADMP: u8 = 0x25;

pub const TAIL: u8 = 0x26;

pub const LEA: u8 = 0x27;

pub const INDX: u8 = 0x28;

pub const MOVP: u8 = 0x29;

pub const MOVM: u8 = 0x2A;

pub const MOVMP: u8 = 0x2B;

pub const MOVB: u8 = 0x2C;

pub const MOVW: u8 = 0x2D;

pub const MOVF: u8 = 0x2E;

pub const CVTBW: u8 = 0x2F;

pub const CVTWB: u8 = 0x30;

pub const CVTFW: u8 = 0x31;

pub const CVTWF: u8 = 0x32;

pub const CVTCA: u8 = 0x33;

pub const CVTAC: u8 = 0x34;

pub const CVTWC: u8 = 0x35;

pub const CVTCW: u8 = 0x36;

pub const CVTFC: u8 = 0x37;

pub const CVTCF: u8 = 0x38;

pub const ADDB: u8 = 0x39;

pub const ADDW: u8 = 0x3A;

pub const ADDF: u8 = 0x3B;

pub const SUBB: u8 = 0x3C;

pub const SUBW: u8 = 0x3D;

pub const SUBF: u8 = 0x3E;

pub const MULB: u8 = 0x3F;

pub const MULW: u8 = 0x40;

pub const MULF: u8 = 0x41;

pub const DIVB: u8 = 0x42;

pub const DIVW: u8 = 0x43;

pub const DIVF: u8 = 0x44;

pub const MODW: u8 = 0x45;

pub const MODB: u8 = 0x46;

pub const ANDB: u8 = 0x47;

pub const ANDW: u8 = 0x48;

pub const ORB: u8 = 0x49;

pub const ORW: u8 = 0x4A;

pub const XORB: u8 = 0x4B;

pub const XORW: u8 = 0x4C;

pub const SHLB: u8 = 0x4D;

pub const SHLW: u8 = 0x4E;

pub const SHRB: u8 = 0x4F;

pub const SHRW: u8 = 0x50;

pub const INSC: u8 = 0x51;

pub const INDC: u8 = 0x52;

pub const ADDC: u8 = 0x53;

pub const LENC: u8 = 0x54;

pub const LENA: u8 = 0x55;

pub const LENL: u8 = 0x56;

pub const BEQB: u8 = 0x57;

pub const BNEB: u8 = 0x58;

pub const BLTB: u8 = 0x59;

pub const BLEB: u8 = 0x5A;

pub const BGTB: u8 = 0x5B;

pub const BGEB: u8 = 0x5C;

pub const BEQW: u8 = 0x5D;

pub const BNEW: u8 = 0x5E;

pub const BLTW: u8 = 0x5F;

pub const BLEW: u8 = 0x60;

pub const BGTW: u8 = 0x61;

pub const BGEW: u8 = 0x62;

pub const BEQF: u8 = 0x63;

pub const BNEF: u8 = 0x64;

pub const BLTF: u8 = 0x65;

pub const BLEF: u8 = 0x66;

pub const BGTF: u8 = 0x67;

pub const BGEF: u8 = 0x68;

pub const BEQC: u8 = 0x69;

pub const BNEC: u8 = 0x6A;

pub const BLTC: u8 = 0x6B;

pub const BLEC: u8 = 0x6C;

pub const BGTC: u8 = 0x6D;

pub const BGEC: u8 = 0x6E;

pub const SLICEA: u8 = 0x6F;

pub const SLICELA: u8 = 0x70;

pub const SLICEC: u8 = 0x71;

pub const INDW: u8 = 0x72;

pub const INDF: u8 = 0x73;

pub const INDB: u8 = 0x74;

pub const NEGF: u8 = 0x75;

pub const MOVL: u8 = 0x76;

pub const ADDL: u8 = 0x77;

pub const SUBL: u8 = 0x78;

pub const DIVL: u8 = 0x79;

pub const MODL: u8 = 0x7A;

pub const MULL: u8 = 0x7B;

pub const ANDL: u8 = 0x7C;

pub const ORL: u8 = 0x7D;

pub const XORL: u8 = 0x7E;

pub const SHLL: u8 = 0x7F;

pub const SHRL: u8 = 0x80;

pub const BNEL: u8 = 0x81;

pub const BLTL: u8 = 0x82;

pub const BLEL: u8 = 0x83;

pub const BGTL: u8 = 0x84;

pub const BGEL: u8 = 0x85;

pub const BEQL: u8 = 0x86;

pub const CVTLF: u8 = 0x87;

pub const CVTFL: u8 = 0x88;

pub const CVTLW: u8 = 0x89;

pub const CVTWL: u8 = 0x8A;

pub const CVTLC: u8 = 0x8B;

pub const CVTCL: u8 = 0x8C;

pub const HEADL: u8 = 0x8D;

pub const CONSL: u8 = 0x8E;

pub const NEWCL: u8 = 0x8F;

pub const CASEC: u8 = 0x90;

pub const INDL: u8 = 0x91;

pub const MOVPC: u8 = 0x92;

pub const TCMP: u8 = 0x93;

pub const MNEWZ: u8 = 0x94;

pub const CVTRF: u8 = 0x95;

pub const CVTFR: u8 = 0x96;

pub const CVTWS: u8 = 0x97;

pub const CVTSW: u8 = 0x98;

pub const LSRW: u8 = 0x99;

pub const LSRL: u8 = 0x9A;

pub const ECLR: u8 = 0x9B;

pub const NEWZ: u8 = 0x9C;

pub const NEWAZ: u8 = 0x9D;

pub const RAISE: u8 = 0x9E;

pub const CASEL: u8 = 0x9F;

pub const MULX: u8 = 0xA0;

pub const DIVX: u8 = 0xA1;

pub const CVTXX: u8 = 0xA2;

pub const MULX0: u8 = 0xA3;

pub const DIVX0: u8 = 0xA4;

pub const CVTXX0: u8 = 0xA5;

pub const MULX1: u8 = 0xA6;

pub const DIVX1: u8 = 0xA7;

pub const CVTXX1: u8 = 0xA8;

pub const CVTFX: u8 = 0xA9;

pub const CVTXF: u8 = 0xAA;

pub const EXPW: u8 = 0xAB;

pub const EXPL: u8 = 0xAC;

pub const EXPF: u8 = 0xAD;

pub const SELF_: u8 = 0xAE;

pub const BRKPT: u8 = 0xAF;
