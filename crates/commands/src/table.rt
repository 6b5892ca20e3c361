// The table of RULES "Commands", for the HT: for each of the 512 nine-bit codes the number of its meaning, which is the lowest upper
// byte that has this meaning, and 0xff where there is none. The comment names the code by its upper byte and its last bit.
pub const NUMBERS: [u8; 512] = [
    0x00, // 00.0 SYS DIS
    0x00, // 00.1 SYS DIS
    0x01, // 01.0 SYS EN
    0x01, // 01.1 SYS EN
    0x02, // 02.0 LCD OFF
    0x02, // 02.1 LCD OFF
    0x03, // 03.0 LCD ON
    0x03, // 03.1 LCD ON
    0x04, // 04.0 TIMER DIS
    0x04, // 04.1 TIMER DIS
    0x05, // 05.0 WDT DIS
    0x05, // 05.1 WDT DIS
    0x06, // 06.0 TIMER EN
    0x06, // 06.1 TIMER EN
    0x07, // 07.0 WDT EN
    0x07, // 07.1 WDT EN
    0x08, // 08.0 TONE OFF
    0x08, // 08.1 TONE OFF
    0x09, // 09.0 TONE ON
    0x09, // 09.1 TONE ON
    0xff, // 0A.0 undefined
    0xff, // 0A.1 undefined
    0xff, // 0B.0 undefined
    0xff, // 0B.1 undefined
    0x0c, // 0C.0 CLR TIMER
    0x0c, // 0C.1 CLR TIMER
    0x0c, // 0D.0 CLR TIMER
    0x0c, // 0D.1 CLR TIMER
    0x0e, // 0E.0 CLR WDT
    0x0e, // 0E.1 CLR WDT
    0x0e, // 0F.0 CLR WDT
    0x0e, // 0F.1 CLR WDT
    0xff, // 10.0 undefined
    0xff, // 10.1 undefined
    0xff, // 11.0 undefined
    0xff, // 11.1 undefined
    0xff, // 12.0 undefined
    0xff, // 12.1 undefined
    0xff, // 13.0 undefined
    0xff, // 13.1 undefined
    0x14, // 14.0 XTAL 32K
    0x14, // 14.1 XTAL 32K
    0x14, // 15.0 XTAL 32K
    0x14, // 15.1 XTAL 32K
    0x14, // 16.0 XTAL 32K
    0x14, // 16.1 XTAL 32K
    0x14, // 17.0 XTAL 32K
    0x14, // 17.1 XTAL 32K
    0x18, // 18.0 RC 256K
    0x18, // 18.1 RC 256K
    0x18, // 19.0 RC 256K
    0x18, // 19.1 RC 256K
    0x18, // 1A.0 RC 256K
    0x18, // 1A.1 RC 256K
    0x18, // 1B.0 RC 256K
    0x18, // 1B.1 RC 256K
    0x1c, // 1C.0 EXT 256K
    0x1c, // 1C.1 EXT 256K
    0x1c, // 1D.0 EXT 256K
    0x1c, // 1D.1 EXT 256K
    0x1c, // 1E.0 EXT 256K
    0x1c, // 1E.1 EXT 256K
    0x1c, // 1F.0 EXT 256K
    0x1c, // 1F.1 EXT 256K
    0x20, // 20.0 BIAS 1/2, 2 commons
    0x20, // 20.1 BIAS 1/2, 2 commons
    0x21, // 21.0 BIAS 1/3, 2 commons
    0x21, // 21.1 BIAS 1/3, 2 commons
    0x20, // 22.0 BIAS 1/2, 2 commons
    0x20, // 22.1 BIAS 1/2, 2 commons
    0x21, // 23.0 BIAS 1/3, 2 commons
    0x21, // 23.1 BIAS 1/3, 2 commons
    0x24, // 24.0 BIAS 1/2, 3 commons
    0x24, // 24.1 BIAS 1/2, 3 commons
    0x25, // 25.0 BIAS 1/3, 3 commons
    0x25, // 25.1 BIAS 1/3, 3 commons
    0x24, // 26.0 BIAS 1/2, 3 commons
    0x24, // 26.1 BIAS 1/2, 3 commons
    0x25, // 27.0 BIAS 1/3, 3 commons
    0x25, // 27.1 BIAS 1/3, 3 commons
    0x28, // 28.0 BIAS 1/2, 4 commons
    0x28, // 28.1 BIAS 1/2, 4 commons
    0x29, // 29.0 BIAS 1/3, 4 commons
    0x29, // 29.1 BIAS 1/3, 4 commons
    0x28, // 2A.0 BIAS 1/2, 4 commons
    0x28, // 2A.1 BIAS 1/2, 4 commons
    0x29, // 2B.0 BIAS 1/3, 4 commons
    0x29, // 2B.1 BIAS 1/3, 4 commons
    0xff, // 2C.0 undefined
    0xff, // 2C.1 undefined
    0xff, // 2D.0 undefined
    0xff, // 2D.1 undefined
    0xff, // 2E.0 undefined
    0xff, // 2E.1 undefined
    0xff, // 2F.0 undefined
    0xff, // 2F.1 undefined
    0xff, // 30.0 undefined
    0xff, // 30.1 undefined
    0xff, // 31.0 undefined
    0xff, // 31.1 undefined
    0xff, // 32.0 undefined
    0xff, // 32.1 undefined
    0xff, // 33.0 undefined
    0xff, // 33.1 undefined
    0xff, // 34.0 undefined
    0xff, // 34.1 undefined
    0xff, // 35.0 undefined
    0xff, // 35.1 undefined
    0xff, // 36.0 undefined
    0xff, // 36.1 undefined
    0xff, // 37.0 undefined
    0xff, // 37.1 undefined
    0xff, // 38.0 undefined
    0xff, // 38.1 undefined
    0xff, // 39.0 undefined
    0xff, // 39.1 undefined
    0xff, // 3A.0 undefined
    0xff, // 3A.1 undefined
    0xff, // 3B.0 undefined
    0xff, // 3B.1 undefined
    0xff, // 3C.0 undefined
    0xff, // 3C.1 undefined
    0xff, // 3D.0 undefined
    0xff, // 3D.1 undefined
    0xff, // 3E.0 undefined
    0xff, // 3E.1 undefined
    0xff, // 3F.0 undefined
    0xff, // 3F.1 undefined
    0x40, // 40.0 TONE 4K
    0x40, // 40.1 TONE 4K
    0x40, // 41.0 TONE 4K
    0x40, // 41.1 TONE 4K
    0x40, // 42.0 TONE 4K
    0x40, // 42.1 TONE 4K
    0x40, // 43.0 TONE 4K
    0x40, // 43.1 TONE 4K
    0x40, // 44.0 TONE 4K
    0x40, // 44.1 TONE 4K
    0x40, // 45.0 TONE 4K
    0x40, // 45.1 TONE 4K
    0x40, // 46.0 TONE 4K
    0x40, // 46.1 TONE 4K
    0x40, // 47.0 TONE 4K
    0x40, // 47.1 TONE 4K
    0x40, // 48.0 TONE 4K
    0x40, // 48.1 TONE 4K
    0x40, // 49.0 TONE 4K
    0x40, // 49.1 TONE 4K
    0x40, // 4A.0 TONE 4K
    0x40, // 4A.1 TONE 4K
    0x40, // 4B.0 TONE 4K
    0x40, // 4B.1 TONE 4K
    0x40, // 4C.0 TONE 4K
    0x40, // 4C.1 TONE 4K
    0x40, // 4D.0 TONE 4K
    0x40, // 4D.1 TONE 4K
    0x40, // 4E.0 TONE 4K
    0x40, // 4E.1 TONE 4K
    0x40, // 4F.0 TONE 4K
    0x40, // 4F.1 TONE 4K
    0x40, // 50.0 TONE 4K
    0x40, // 50.1 TONE 4K
    0x40, // 51.0 TONE 4K
    0x40, // 51.1 TONE 4K
    0x40, // 52.0 TONE 4K
    0x40, // 52.1 TONE 4K
    0x40, // 53.0 TONE 4K
    0x40, // 53.1 TONE 4K
    0x40, // 54.0 TONE 4K
    0x40, // 54.1 TONE 4K
    0x40, // 55.0 TONE 4K
    0x40, // 55.1 TONE 4K
    0x40, // 56.0 TONE 4K
    0x40, // 56.1 TONE 4K
    0x40, // 57.0 TONE 4K
    0x40, // 57.1 TONE 4K
    0x40, // 58.0 TONE 4K
    0x40, // 58.1 TONE 4K
    0x40, // 59.0 TONE 4K
    0x40, // 59.1 TONE 4K
    0x40, // 5A.0 TONE 4K
    0x40, // 5A.1 TONE 4K
    0x40, // 5B.0 TONE 4K
    0x40, // 5B.1 TONE 4K
    0x40, // 5C.0 TONE 4K
    0x40, // 5C.1 TONE 4K
    0x40, // 5D.0 TONE 4K
    0x40, // 5D.1 TONE 4K
    0x40, // 5E.0 TONE 4K
    0x40, // 5E.1 TONE 4K
    0x40, // 5F.0 TONE 4K
    0x40, // 5F.1 TONE 4K
    0x60, // 60.0 TONE 2K
    0x60, // 60.1 TONE 2K
    0x60, // 61.0 TONE 2K
    0x60, // 61.1 TONE 2K
    0x60, // 62.0 TONE 2K
    0x60, // 62.1 TONE 2K
    0x60, // 63.0 TONE 2K
    0x60, // 63.1 TONE 2K
    0x60, // 64.0 TONE 2K
    0x60, // 64.1 TONE 2K
    0x60, // 65.0 TONE 2K
    0x60, // 65.1 TONE 2K
    0x60, // 66.0 TONE 2K
    0x60, // 66.1 TONE 2K
    0x60, // 67.0 TONE 2K
    0x60, // 67.1 TONE 2K
    0x60, // 68.0 TONE 2K
    0x60, // 68.1 TONE 2K
    0x60, // 69.0 TONE 2K
    0x60, // 69.1 TONE 2K
    0x60, // 6A.0 TONE 2K
    0x60, // 6A.1 TONE 2K
    0x60, // 6B.0 TONE 2K
    0x60, // 6B.1 TONE 2K
    0x60, // 6C.0 TONE 2K
    0x60, // 6C.1 TONE 2K
    0x60, // 6D.0 TONE 2K
    0x60, // 6D.1 TONE 2K
    0x60, // 6E.0 TONE 2K
    0x60, // 6E.1 TONE 2K
    0x60, // 6F.0 TONE 2K
    0x60, // 6F.1 TONE 2K
    0x60, // 70.0 TONE 2K
    0x60, // 70.1 TONE 2K
    0x60, // 71.0 TONE 2K
    0x60, // 71.1 TONE 2K
    0x60, // 72.0 TONE 2K
    0x60, // 72.1 TONE 2K
    0x60, // 73.0 TONE 2K
    0x60, // 73.1 TONE 2K
    0x60, // 74.0 TONE 2K
    0x60, // 74.1 TONE 2K
    0x60, // 75.0 TONE 2K
    0x60, // 75.1 TONE 2K
    0x60, // 76.0 TONE 2K
    0x60, // 76.1 TONE 2K
    0x60, // 77.0 TONE 2K
    0x60, // 77.1 TONE 2K
    0x60, // 78.0 TONE 2K
    0x60, // 78.1 TONE 2K
    0x60, // 79.0 TONE 2K
    0x60, // 79.1 TONE 2K
    0x60, // 7A.0 TONE 2K
    0x60, // 7A.1 TONE 2K
    0x60, // 7B.0 TONE 2K
    0x60, // 7B.1 TONE 2K
    0x60, // 7C.0 TONE 2K
    0x60, // 7C.1 TONE 2K
    0x60, // 7D.0 TONE 2K
    0x60, // 7D.1 TONE 2K
    0x60, // 7E.0 TONE 2K
    0x60, // 7E.1 TONE 2K
    0x60, // 7F.0 TONE 2K
    0x60, // 7F.1 TONE 2K
    0x80, // 80.0 IRQ DIS
    0x80, // 80.1 IRQ DIS
    0x80, // 81.0 IRQ DIS
    0x80, // 81.1 IRQ DIS
    0x80, // 82.0 IRQ DIS
    0x80, // 82.1 IRQ DIS
    0x80, // 83.0 IRQ DIS
    0x80, // 83.1 IRQ DIS
    0x80, // 84.0 IRQ DIS
    0x80, // 84.1 IRQ DIS
    0x80, // 85.0 IRQ DIS
    0x80, // 85.1 IRQ DIS
    0x80, // 86.0 IRQ DIS
    0x80, // 86.1 IRQ DIS
    0x80, // 87.0 IRQ DIS
    0x80, // 87.1 IRQ DIS
    0x88, // 88.0 IRQ EN
    0x88, // 88.1 IRQ EN
    0x88, // 89.0 IRQ EN
    0x88, // 89.1 IRQ EN
    0x88, // 8A.0 IRQ EN
    0x88, // 8A.1 IRQ EN
    0x88, // 8B.0 IRQ EN
    0x88, // 8B.1 IRQ EN
    0x88, // 8C.0 IRQ EN
    0x88, // 8C.1 IRQ EN
    0x88, // 8D.0 IRQ EN
    0x88, // 8D.1 IRQ EN
    0x88, // 8E.0 IRQ EN
    0x88, // 8E.1 IRQ EN
    0x88, // 8F.0 IRQ EN
    0x88, // 8F.1 IRQ EN
    0x80, // 90.0 IRQ DIS
    0x80, // 90.1 IRQ DIS
    0x80, // 91.0 IRQ DIS
    0x80, // 91.1 IRQ DIS
    0x80, // 92.0 IRQ DIS
    0x80, // 92.1 IRQ DIS
    0x80, // 93.0 IRQ DIS
    0x80, // 93.1 IRQ DIS
    0x80, // 94.0 IRQ DIS
    0x80, // 94.1 IRQ DIS
    0x80, // 95.0 IRQ DIS
    0x80, // 95.1 IRQ DIS
    0x80, // 96.0 IRQ DIS
    0x80, // 96.1 IRQ DIS
    0x80, // 97.0 IRQ DIS
    0x80, // 97.1 IRQ DIS
    0x88, // 98.0 IRQ EN
    0x88, // 98.1 IRQ EN
    0x88, // 99.0 IRQ EN
    0x88, // 99.1 IRQ EN
    0x88, // 9A.0 IRQ EN
    0x88, // 9A.1 IRQ EN
    0x88, // 9B.0 IRQ EN
    0x88, // 9B.1 IRQ EN
    0x88, // 9C.0 IRQ EN
    0x88, // 9C.1 IRQ EN
    0x88, // 9D.0 IRQ EN
    0x88, // 9D.1 IRQ EN
    0x88, // 9E.0 IRQ EN
    0x88, // 9E.1 IRQ EN
    0x88, // 9F.0 IRQ EN
    0x88, // 9F.1 IRQ EN
    0xa0, // A0.0 F1
    0xa0, // A0.1 F1
    0xa1, // A1.0 F2
    0xa1, // A1.1 F2
    0xa2, // A2.0 F4
    0xa2, // A2.1 F4
    0xa3, // A3.0 F8
    0xa3, // A3.1 F8
    0xa4, // A4.0 F16
    0xa4, // A4.1 F16
    0xa5, // A5.0 F32
    0xa5, // A5.1 F32
    0xa6, // A6.0 F64
    0xa6, // A6.1 F64
    0xa7, // A7.0 F128
    0xa7, // A7.1 F128
    0xa0, // A8.0 F1
    0xa0, // A8.1 F1
    0xa1, // A9.0 F2
    0xa1, // A9.1 F2
    0xa2, // AA.0 F4
    0xa2, // AA.1 F4
    0xa3, // AB.0 F8
    0xa3, // AB.1 F8
    0xa4, // AC.0 F16
    0xa4, // AC.1 F16
    0xa5, // AD.0 F32
    0xa5, // AD.1 F32
    0xa6, // AE.0 F64
    0xa6, // AE.1 F64
    0xa7, // AF.0 F128
    0xa7, // AF.1 F128
    0xa0, // B0.0 F1
    0xa0, // B0.1 F1
    0xa1, // B1.0 F2
    0xa1, // B1.1 F2
    0xa2, // B2.0 F4
    0xa2, // B2.1 F4
    0xa3, // B3.0 F8
    0xa3, // B3.1 F8
    0xa4, // B4.0 F16
    0xa4, // B4.1 F16
    0xa5, // B5.0 F32
    0xa5, // B5.1 F32
    0xa6, // B6.0 F64
    0xa6, // B6.1 F64
    0xa7, // B7.0 F128
    0xa7, // B7.1 F128
    0xa0, // B8.0 F1
    0xa0, // B8.1 F1
    0xa1, // B9.0 F2
    0xa1, // B9.1 F2
    0xa2, // BA.0 F4
    0xa2, // BA.1 F4
    0xa3, // BB.0 F8
    0xa3, // BB.1 F8
    0xa4, // BC.0 F16
    0xa4, // BC.1 F16
    0xa5, // BD.0 F32
    0xa5, // BD.1 F32
    0xa6, // BE.0 F64
    0xa6, // BE.1 F64
    0xa7, // BF.0 F128
    0xa7, // BF.1 F128
    0xff, // C0.0 undefined
    0xff, // C0.1 undefined
    0xff, // C1.0 undefined
    0xff, // C1.1 undefined
    0xff, // C2.0 undefined
    0xff, // C2.1 undefined
    0xff, // C3.0 undefined
    0xff, // C3.1 undefined
    0xff, // C4.0 undefined
    0xff, // C4.1 undefined
    0xff, // C5.0 undefined
    0xff, // C5.1 undefined
    0xff, // C6.0 undefined
    0xff, // C6.1 undefined
    0xff, // C7.0 undefined
    0xff, // C7.1 undefined
    0xff, // C8.0 undefined
    0xff, // C8.1 undefined
    0xff, // C9.0 undefined
    0xff, // C9.1 undefined
    0xff, // CA.0 undefined
    0xff, // CA.1 undefined
    0xff, // CB.0 undefined
    0xff, // CB.1 undefined
    0xff, // CC.0 undefined
    0xff, // CC.1 undefined
    0xff, // CD.0 undefined
    0xff, // CD.1 undefined
    0xff, // CE.0 undefined
    0xff, // CE.1 undefined
    0xff, // CF.0 undefined
    0xff, // CF.1 undefined
    0xff, // D0.0 undefined
    0xff, // D0.1 undefined
    0xff, // D1.0 undefined
    0xff, // D1.1 undefined
    0xff, // D2.0 undefined
    0xff, // D2.1 undefined
    0xff, // D3.0 undefined
    0xff, // D3.1 undefined
    0xff, // D4.0 undefined
    0xff, // D4.1 undefined
    0xff, // D5.0 undefined
    0xff, // D5.1 undefined
    0xff, // D6.0 undefined
    0xff, // D6.1 undefined
    0xff, // D7.0 undefined
    0xff, // D7.1 undefined
    0xff, // D8.0 undefined
    0xff, // D8.1 undefined
    0xff, // D9.0 undefined
    0xff, // D9.1 undefined
    0xff, // DA.0 undefined
    0xff, // DA.1 undefined
    0xff, // DB.0 undefined
    0xff, // DB.1 undefined
    0xff, // DC.0 undefined
    0xff, // DC.1 undefined
    0xff, // DD.0 undefined
    0xff, // DD.1 undefined
    0xff, // DE.0 undefined
    0xff, // DE.1 undefined
    0xff, // DF.0 undefined
    0xff, // DF.1 undefined
    0xe0, // E0.0 TEST
    0xe0, // E0.1 TEST
    0xff, // E1.0 undefined
    0xff, // E1.1 undefined
    0xff, // E2.0 undefined
    0xff, // E2.1 undefined
    0xe3, // E3.0 NORMAL
    0xe3, // E3.1 NORMAL
    0xff, // E4.0 undefined
    0xff, // E4.1 undefined
    0xff, // E5.0 undefined
    0xff, // E5.1 undefined
    0xff, // E6.0 undefined
    0xff, // E6.1 undefined
    0xff, // E7.0 undefined
    0xff, // E7.1 undefined
    0xff, // E8.0 undefined
    0xff, // E8.1 undefined
    0xff, // E9.0 undefined
    0xff, // E9.1 undefined
    0xff, // EA.0 undefined
    0xff, // EA.1 undefined
    0xff, // EB.0 undefined
    0xff, // EB.1 undefined
    0xff, // EC.0 undefined
    0xff, // EC.1 undefined
    0xff, // ED.0 undefined
    0xff, // ED.1 undefined
    0xff, // EE.0 undefined
    0xff, // EE.1 undefined
    0xff, // EF.0 undefined
    0xff, // EF.1 undefined
    0xff, // F0.0 undefined
    0xff, // F0.1 undefined
    0xff, // F1.0 undefined
    0xff, // F1.1 undefined
    0xff, // F2.0 undefined
    0xff, // F2.1 undefined
    0xff, // F3.0 undefined
    0xff, // F3.1 undefined
    0xff, // F4.0 undefined
    0xff, // F4.1 undefined
    0xff, // F5.0 undefined
    0xff, // F5.1 undefined
    0xff, // F6.0 undefined
    0xff, // F6.1 undefined
    0xff, // F7.0 undefined
    0xff, // F7.1 undefined
    0xff, // F8.0 undefined
    0xff, // F8.1 undefined
    0xff, // F9.0 undefined
    0xff, // F9.1 undefined
    0xff, // FA.0 undefined
    0xff, // FA.1 undefined
    0xff, // FB.0 undefined
    0xff, // FB.1 undefined
    0xff, // FC.0 undefined
    0xff, // FC.1 undefined
    0xff, // FD.0 undefined
    0xff, // FD.1 undefined
    0xff, // FE.0 undefined
    0xff, // FE.1 undefined
    0xff, // FF.0 undefined
    0xff, // FF.1 undefined
];
