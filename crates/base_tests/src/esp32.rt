//! The fuse map of the whole ESP32.

/// The text of the family esp32's `map.toml`; `tools/pages` looks whether it is.
pub const ESP32: &str = r#"# The eFuses of the ESP32, for POST /v1/map (docs/reference/files.md).
#
# Source: espefuse 4.7.0, espefuse/efuse_defs/esp32.yaml, VER_NO 369d2d860d34e777c0f7d545a7dfc3c4. Names and positions
# are that file's (`blk`, `start`, `len`); `write` and `read` are its `wr_dis` and `rd_dis`, the bit of WR_DIS or RD_DIS
# that locks the field. Where it names no lock there is none here: the chip may have one all the same, and what it then
# doesn't take reads back as `short`.
#
# It is for chips whose CODING_SCHEME reads 0: others are refused as 36.
#
# Left out:
# - Bits of block 0 that the source calls reserved. What reads 1 there at the registration is known as burnt.
# - BLOCK3 as one field, which shares its positions with the fields of block 3 below. All of the block is in these, its
#   reserved bits too, since one read lock hides them all. Its locks are those of any of its fields. Who burns it as one
#   key writes this in their place:
#       { name = "BLOCK3", block = 3, bit = 0, count = 256, write = 9, read = 2, key = true },
# - Second names of a field (the source's `alt`), as ENCRYPT_FLASH_KEY for BLOCK1 and DISABLE_JTAG for JTAG_DISABLE.
#
# Before a plan has UART_DOWNLOAD_DIS, or the read lock of BLOCK2, read docs/integrate/station.md.

name = "esp32"
wr = "WR_DIS"
rd = "RD_DIS"
coding = "CODING_SCHEME"
block = [{ words = 7 }, { words = 8 }, { words = 8 }, { words = 8 }]
field = [
    # Block 0, word 0: the locks, and the counter of flash encryption.
    { name = "WR_DIS", block = 0, bit = 0, count = 16, write = 1 },
    { name = "RD_DIS", block = 0, bit = 16, count = 4, write = 0 },
    { name = "FLASH_CRYPT_CNT", block = 0, bit = 20, count = 7, write = 2 },
    { name = "UART_DOWNLOAD_DIS", block = 0, bit = 27, count = 1, write = 2 },
    # Words 1 and 2: the factory MAC, and its CRC.
    { name = "MAC", block = 0, bit = 32, count = 48, write = 3 },
    { name = "MAC_CRC", block = 0, bit = 80, count = 8, write = 3 },
    # Word 3: what the chip is.
    { name = "DISABLE_APP_CPU", block = 0, bit = 96, count = 1, write = 3 },
    { name = "DISABLE_BT", block = 0, bit = 97, count = 1, write = 3 },
    { name = "CHIP_PACKAGE_4BIT", block = 0, bit = 98, count = 1 },
    { name = "DIS_CACHE", block = 0, bit = 99, count = 1, write = 3 },
    { name = "SPI_PAD_CONFIG_HD", block = 0, bit = 100, count = 5 },
    { name = "CHIP_PACKAGE", block = 0, bit = 105, count = 3 },
    { name = "CHIP_CPU_FREQ_LOW", block = 0, bit = 108, count = 1 },
    { name = "CHIP_CPU_FREQ_RATED", block = 0, bit = 109, count = 1 },
    { name = "BLK3_PART_RESERVE", block = 0, bit = 110, count = 1, write = 10, read = 3 },
    { name = "CHIP_VER_REV1", block = 0, bit = 111, count = 1 },
    # Word 4: clock, calibration, the flash voltage.
    { name = "CLK8M_FREQ", block = 0, bit = 128, count = 8, write = 4 },
    { name = "ADC_VREF", block = 0, bit = 136, count = 5, write = 4 },
    { name = "XPD_SDIO_REG", block = 0, bit = 142, count = 1, write = 5 },
    { name = "XPD_SDIO_TIEH", block = 0, bit = 143, count = 1, write = 5 },
    { name = "XPD_SDIO_FORCE", block = 0, bit = 144, count = 1, write = 5 },
    # Word 5: the pads of the flash, revisions, how flash encryption tweaks its key.
    { name = "SPI_PAD_CONFIG_CLK", block = 0, bit = 160, count = 5, write = 6 },
    { name = "SPI_PAD_CONFIG_Q", block = 0, bit = 165, count = 5, write = 6 },
    { name = "SPI_PAD_CONFIG_D", block = 0, bit = 170, count = 5, write = 6 },
    { name = "SPI_PAD_CONFIG_CS0", block = 0, bit = 175, count = 5, write = 6 },
    { name = "CHIP_VER_REV2", block = 0, bit = 180, count = 1 },
    { name = "VOL_LEVEL_HP_INV", block = 0, bit = 182, count = 2, write = 3 },
    { name = "WAFER_VERSION_MINOR", block = 0, bit = 184, count = 2 },
    { name = "FLASH_CRYPT_CONFIG", block = 0, bit = 188, count = 4, write = 10, read = 3 },
    # Word 6: the coding scheme, and what is shut off.
    { name = "CODING_SCHEME", block = 0, bit = 192, count = 2, write = 10, read = 3 },
    { name = "CONSOLE_DEBUG_DISABLE", block = 0, bit = 194, count = 1, write = 15 },
    { name = "DISABLE_SDIO_HOST", block = 0, bit = 195, count = 1 },
    { name = "ABS_DONE_0", block = 0, bit = 196, count = 1, write = 12 },
    { name = "ABS_DONE_1", block = 0, bit = 197, count = 1, write = 13 },
    { name = "JTAG_DISABLE", block = 0, bit = 198, count = 1, write = 14 },
    { name = "DISABLE_DL_ENCRYPT", block = 0, bit = 199, count = 1, write = 15 },
    { name = "DISABLE_DL_DECRYPT", block = 0, bit = 200, count = 1, write = 15 },
    { name = "DISABLE_DL_CACHE", block = 0, bit = 201, count = 1, write = 15 },
    { name = "KEY_STATUS", block = 0, bit = 202, count = 1, write = 10, read = 3 },
    # The two keys: of flash encryption, and of secure boot (V1 its key, V2 the digest of one).
    { name = "BLOCK1", block = 1, bit = 0, count = 256, write = 7, read = 0, key = true },
    { name = "BLOCK2", block = 2, bit = 0, count = 256, write = 8, read = 1, key = true },
    # Block 3: a MAC of the customer's own, calibration, the version against rollbacks, and what is free.
    { name = "CUSTOM_MAC_CRC", block = 3, bit = 0, count = 8, write = 9, read = 2 },
    { name = "CUSTOM_MAC", block = 3, bit = 8, count = 48, write = 9, read = 2 },
    { name = "RESERVED_3_56", block = 3, bit = 56, count = 8, write = 9, read = 2 },
    { name = "BLK3_RESERVED_2", block = 3, bit = 64, count = 32, write = 9, read = 2 },
    { name = "ADC1_TP_LOW", block = 3, bit = 96, count = 7, write = 9, read = 2 },
    { name = "ADC1_TP_HIGH", block = 3, bit = 103, count = 9, write = 9, read = 2 },
    { name = "ADC2_TP_LOW", block = 3, bit = 112, count = 7, write = 9, read = 2 },
    { name = "ADC2_TP_HIGH", block = 3, bit = 119, count = 9, write = 9, read = 2 },
    { name = "SECURE_VERSION", block = 3, bit = 128, count = 32, write = 9, read = 2 },
    { name = "RESERVED_3_160", block = 3, bit = 160, count = 24, write = 9, read = 2 },
    { name = "MAC_VERSION", block = 3, bit = 184, count = 8, write = 9, read = 2 },
    { name = "BLK3_RESERVED_6", block = 3, bit = 192, count = 32, write = 9, read = 2 },
    { name = "BLK3_RESERVED_7", block = 3, bit = 224, count = 32, write = 9, read = 2 },
]
"#;
