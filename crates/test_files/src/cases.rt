// The cases, one a line. A line has what differs from a good file, by the letters of its fields: L the bytes of the file, K its back
// count, N its boats, C its columns, S its steps, T its tolerance, W its letters as a number, V a value that stands P bytes before the
// trailer, F the three bytes before a sheet's trailer, lowest first. With A it is a case for each value of a list. A line for two files
// has those of the sheet behind a semicolon.

// Fleet books: length, letters and counts on both sides of their limits. A good one has 3 boats and 2 columns.
pub fn books(rt: &HostRuntime) {
    crate::each_case(
        rt,
        "book length 0: N1 C1 K2 L0
book length 11: N1 C1 K2 L11
book length 12: N1 C1 K2 L12
book length 13: N1 C1 K2 L13
book length 14: N1 C1 K2 L14
book length 40000: N1 C1 K2 L40000
book length 40001: N1 C1 K2 L40001
book letters 827015767: W827015767
book letters 827015768: W827015768
book letters 827016023: W827016023
book letters 827081303: W827081303
book letters 843792983: W843792983
book boats 0: N0 C1 K0 L12
book boats 1: N1 C1 K2 L14
book boats 256: N256 C1 K512 L524
book boats 257: N257 C1 K514 L526
book columns 0: N1 C0 K0 L12
book columns 1: N1 C1 K2 L14
book columns 64: N1 C64 K128 L140
book columns 65: N1 C65 K130 L142
book of 256 boats and 64 columns: N256 C64 K32768 L32780
book of 65535 boats: N65535 C1 K2 L14
book of 65535 columns: N1 C65535 K2 L14
",
    );
}

// Their back counts and bodies, and books with two faults.
pub fn book_bodies(rt: &HostRuntime) {
    crate::each_case(
        rt,
        "book back 0: K0
book back 11: K11
book back 12: K12
book back 13: K13
book back 268: K268
book back 65548: K65548
book back 16777228: K16777228
book back 4294967295: K4294967295
book body short by a byte: L23
book body to the first byte: L24
book body behind a byte: L25
book first value: A L24 P12
book middle value: A L24 P8
book last value: A L24 P2
book front just before the body: A L26 P14
book front at the first byte: A L40000 P39988
book length and letters: L40001 W0
book letters and boats: N0 K0 L12 W0
book boats and columns: N0 C0 K0 L12
book boats and back: N257
book columns and back: C65
book back and value: K14 P2 V2001
book letters and value: W0 P2 V2001
",
    );
}

// Sheets: the same, for a fleet book of 3 columns, or of as many as Q says.
pub fn sheets(rt: &HostRuntime) {
    crate::each_case(
        rt,
        "sheet length 0: L0
sheet length 15: L15
sheet length 16: L16
sheet length 21: L21
sheet length 22: L22
sheet length 40000: L40000
sheet length 40001: L40001
sheet of no columns for none: C0 K0 L16 Q0
sheet letters 826823511: W826823511
sheet letters 826823512: W826823512
sheet letters 826823767: W826823767
sheet letters 826889047: W826889047
sheet letters 843600727: W843600727
sheet for columns 2: Q2
sheet for columns 3: Q3
sheet for columns 4: Q4
sheet for columns 65539: Q65539
sheet steps 0: S0
sheet steps 1: S1
sheet steps 360: S360
sheet steps 361: S361
sheet steps 65535: S65535
sheet tolerance 0: T0
sheet tolerance 1024000000: T1024000000
sheet tolerance 1024000001: T1024000001
sheet tolerance 4294967295: T4294967295
sheet of 64 columns for 64: C64 Q64 K128 L144
sheet of 65 columns for 65: C65 Q65 K130 L146
",
    );
}

// Their back counts and bodies, and sheets with two faults.
pub fn sheet_bodies(rt: &HostRuntime) {
    crate::each_case(
        rt,
        "sheet back 0: K0
sheet back 5: K5
sheet back 6: K6
sheet back 7: K7
sheet back 262: K262
sheet back 65542: K65542
sheet back 16777222: K16777222
sheet back 4294967295: K4294967295
sheet body short by a byte: L21
sheet body to the first byte: L22
sheet body behind a byte: L23
sheet first value: A L22 P6
sheet middle value: A L22 P4
sheet last value: A L22 P2
sheet front just before the body: A L24 P8
sheet front at the first byte: A L40000 P39984
sheet length and letters: L40001 W0
sheet letters and columns: C2 K4 L20 W0
sheet columns and steps: C2 K4 L20 S0
sheet columns and back: C2
sheet steps and tolerance: S361 T1024000001
sheet tolerance and back: T1024000001 K7
sheet back and value: K8 P2 V2001
sheet steps and value: S0 P2 V2001
",
    );
}

// Sheets with factors, of 3 columns unless C says otherwise: length, letters, counts and back count.
pub fn factored_sheets(rt: &HostRuntime) {
    crate::each_case(
        rt,
        "sheet with factors length 15: W843600727 K9 F65793 L15
sheet with factors length 16: W843600727 K9 F65793 L16
sheet with factors length 24: W843600727 K9 F65793 L24
sheet with factors length 25: W843600727 K9 F65793 L25
sheet with factors length 26: W843600727 K9 F65793 L26
sheet with factors length 40000: W843600727 K9 F65793 L40000
sheet with factors length 40001: W843600727 K9 F65793 L40001
sheet with factors letters 843600726: W843600726 K9 F65793 L25
sheet with factors letters 843600728: W843600728 K9 F65793 L25
sheet with factors letters 860377943: W860377943 K9 F65793 L25
sheet with factors letters 826823511: W826823511 K9 F65793 L25
sheet with factors for columns 2: W843600727 K9 F65793 L25 Q2
sheet with factors for columns 4: W843600727 K9 F65793 L25 Q4
sheet with factors steps 0: W843600727 K9 F65793 L25 S0
sheet with factors steps 361: W843600727 K9 F65793 L25 S361
sheet with factors tolerance 1024000001: W843600727 K9 F65793 L25 T1024000001
sheet with factors back 0: W843600727 K0 F65793 L25
sheet with factors back 6: W843600727 K6 F65793 L25
sheet with factors back 8: W843600727 K8 F65793 L25
sheet with factors back 9: W843600727 K9 F65793 L25
sheet with factors back 10: W843600727 K10 F65793 L26
sheet with factors back 12: W843600727 K12 F65793 L28
sheet with factors back 265: W843600727 K265 F65793 L40000
sheet with factors back 16777225: W843600727 K16777225 F65793 L40000
sheet with factors first value: A W843600727 K9 F65793 L25 P9
sheet with factors middle value: A W843600727 K9 F65793 L25 P7
sheet with factors last value: A W843600727 K9 F65793 L25 P5
sheet with factors front just before the body: A W843600727 K9 F65793 L27 P11
",
    );
}

// Their factors on both sides of the limits, and two faults.
pub fn factors(rt: &HostRuntime) {
    crate::each_case(
        rt,
        "sheet factors 0 0 0: W843600727 K9 L25 F0
sheet factors 1 0 0: W843600727 K9 L25 F1
sheet factors 0 0 1: W843600727 K9 L25 F65536
sheet factors 0 63 0: W843600727 K9 L25 F16128
sheet factors 64 0 0: W843600727 K9 L25 F64
sheet factors 21 21 22: W843600727 K9 L25 F1447189
sheet factors 65 0 0: W843600727 K9 L25 F65
sheet factors 0 64 1: W843600727 K9 L25 F81920
sheet factors 22 21 22: W843600727 K9 L25 F1447190
sheet factors 128 64 64: W843600727 K9 L25 F4210816
sheet factors 255 1 1: W843600727 K9 L25 F66047
sheet factors 255 255 255: W843600727 K9 L25 F16777215
sheet factor 0 of one column: W843600727 C1 Q1 K3 L19 F0
sheet factor 1 of one column: W843600727 C1 Q1 K3 L19 F65536
sheet factor 64 of one column: W843600727 C1 Q1 K3 L19 F4194304
sheet factor 65 of one column: W843600727 C1 Q1 K3 L19 F4259840
sheet factors of 64 columns total 64: W843600727 C64 Q64 K192 L208 F4194304
sheet factors of 64 columns total 65: W843600727 C64 Q64 K192 L208 F4194305
sheet factors of 64 columns total 0: W843600727 C64 Q64 K192 L208 F0
sheet factors of no columns for none: W843600727 C0 Q0 K0 L16 F1
sheet back and factors: W843600727 K10 L26 F0
sheet value and factors: W843600727 K9 L25 F0 P9 V2001
",
    );
}

// A fleet book of 2 columns and a sheet for it.
pub fn both(rt: &HostRuntime) {
    crate::each_case(
        rt,
        "both accepted: ; C2 K4 L20
both empty: L0; L0
book accepted, sheet empty: ; L0
book value out, sheet short: P2 V2001; C2 K4 L15
book boats out, sheet steps out: N0 K0 L12; C2 K4 L20 S0
book accepted, sheet letters: ; C2 K4 L20 W0
book accepted, sheet of 3 columns: ;
book accepted, sheet steps out: ; C2 K4 L20 S361
book accepted, sheet tolerance out: ; C2 K4 L20 T1024000001
book accepted, sheet back out: ; C2 K5 L20
book accepted, sheet value out: ; C2 K4 L20 P2 V2001
book accepted, sheet with factors: ; W843600727 C2 K6 L22 F65792
book accepted, sheet factors out: ; W843600727 C2 K6 L22 F0
book value out, sheet factors out: P2 V2001; W843600727 C2 K6 L22 F0
",
    );
}
